// What a person reads.
use crate::{Cause, Fault, StoreFailure};
use ranges::{AlignOverflow, InvalidGetRange};
use records::{InvalidHead, InvalidPath};
use std::test::Fail;

#[test]
fn sentences(rt: HostRuntime) -> Result<(), Fail> {
    let heap = rt.alloc();
    let lost = Fault::new(Cause::NotFound).up();
    let lost = format!(in heap; "{lost}")?;
    assert!(rt; lost.as_str() == "No object has this path (refusal 5, layers passed: 1)");
    let range = Cause::BadRange(InvalidGetRange::StartTooLarge {
        requested: 10,
        length: 10,
    });
    let range = format!(in heap; "{range}")?;
    assert!(rt; range.as_str() == "Range start too large, requested: 10, length: 10");
    let full = Fault::new(Cause::StoreFailed(StoreFailure::Full));
    let full = format!(in heap; "{full}")?;
    assert!(rt; full.as_str() == "The store is full (refusal 11, layers passed: 0)");
    Ok(())
}

#[test]
fn sentences_of_limits(rt: HostRuntime) -> Result<(), Fail> {
    let heap = rt.alloc();
    let path = Cause::BadPath(InvalidPath { length: 65 });
    let path = format!(in heap; "{path}")?;
    assert!(rt; path.as_str() == "A path has 1 to 64 bytes, not 65");
    let head = Cause::BadHead(InvalidHead::Attributes(9));
    let head = format!(in heap; "{head}")?;
    assert!(rt; head.as_str() == "A head has at most 8 attributes, not 9");
    let rounding = Cause::RoundingOverflow(AlignOverflow {
        requested: u64::MAX,
    });
    let rounding = format!(in heap; "{rounding}")?;
    assert!(rt;
        rounding.as_str()
            == "Rounding 18446744073709551615 up to a multiple of the part size passes 2^64 - 1"
    );
    Ok(())
}
