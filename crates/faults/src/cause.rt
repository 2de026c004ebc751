// Why a call is refused.
ghost use Rattle.std.specs.Prelude.{◌≡◌};
ghost use Rattle.faults.specs.Causes.{refusal_of};

use ranges::{AlignOverflow, InvalidCachePartSize, InvalidGetRange};
use records::{BufferTooShort, InvalidHead, InvalidPath};

// How a store failed.
#[derive(Clone, Copy, Debug, PartialEq, Eq)]
pub enum StoreFailure {
    // it has no room
    Full,
    // it did not answer
    Unreachable,
}

// The thirteen causes, in the order of their numbers.
#[derive(Clone, Copy, Debug, PartialEq, Eq)]
pub enum Cause {
    BadPartSize(InvalidCachePartSize),
    BadPath(InvalidPath),
    BadHead(InvalidHead),
    ShortBuffer(BufferTooShort),
    NotFound,
    BadRange(InvalidGetRange),
    RoundingOverflow(AlignOverflow),
    // a body that begins inside a part, at this byte
    BodyOffPart(u64),
    NoUploadPlace,
    // no upload with this number
    UploadNotOpen(u64),
    StoreFailed(StoreFailure),
    ShortBody,
    CacheRefused,
}

impl Cause {
    // Its number in the closed list: no `u8` of the enum, since most causes carry values.
    pub fn number(&self) -> u8
        ensures { result ≡ (refusal_of self.now).number }
    {
        match self {
            Cause::BadPartSize(_) => 1,
            Cause::BadPath(_) => 2,
            Cause::BadHead(_) => 3,
            Cause::ShortBuffer(_) => 4,
            Cause::NotFound => 5,
            Cause::BadRange(_) => 6,
            Cause::RoundingOverflow(_) => 7,
            Cause::BodyOffPart(_) => 8,
            Cause::NoUploadPlace => 9,
            Cause::UploadNotOpen(_) => 10,
            Cause::StoreFailed(_) => 11,
            Cause::ShortBody => 12,
            Cause::CacheRefused => 13,
        }
    }
}
