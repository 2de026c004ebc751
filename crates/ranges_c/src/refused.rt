// Why a call is refused, and the status by which it says so.
ghost use Rattle.std.specs.Prelude.{◌≡◌};
ghost use Rattle.ranges_c.specs.Status.{status};

use ranges::{AlignOverflow, InvalidCachePartSize, InvalidGetRange};

#[derive(Clone, Copy, Debug, PartialEq, Eq)]
pub enum Refused {
    PartSize(InvalidCachePartSize),
    SliceTooShort,
    Range(InvalidGetRange),
    Align(AlignOverflow),
}

// 0, or the refusal's number with 256 times its reason: C has no `Result`.
pub(crate) fn status_of(answer: Result<(), Refused>) -> u64
    ensures { result ≡ status answer }
{
    match answer {
        Ok(()) => 0,
        Err(Refused::PartSize(_)) => 1,
        Err(Refused::SliceTooShort) => 4,
        Err(Refused::Range(InvalidGetRange::StartTooLarge { .. })) => 6 + 256,
        Err(Refused::Range(InvalidGetRange::Inconsistent { .. })) => 6 + 512,
        Err(Refused::Align(_)) => 7,
    }
}
