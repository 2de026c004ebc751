// The refusals of the crates below as causes, and a cause as a fault, so that `?` takes them up.
ghost use Rattle.std.specs.Prelude.{◌≡◌};
ghost use Rattle.faults.specs.declared.cause.Cause.TheVariants.{BadPartSize, BadPath, BadHead, ShortBuffer, BadRange, RoundingOverflow, StoreFailed};

use crate::cause::{Cause, StoreFailure};
use crate::fault::Fault;
use ranges::{AlignOverflow, InvalidCachePartSize, InvalidGetRange};
use records::{BufferTooShort, InvalidHead, InvalidPath};

impl From<InvalidCachePartSize> for Cause {
    ghost from_gives = { λ refusal cause. cause ≡ BadPartSize refusal };

    fn from(refusal: InvalidCachePartSize) -> Cause {
        Cause::BadPartSize(refusal)
    }
}

impl From<InvalidPath> for Cause {
    ghost from_gives = { λ refusal cause. cause ≡ BadPath refusal };

    fn from(refusal: InvalidPath) -> Cause {
        Cause::BadPath(refusal)
    }
}

impl From<InvalidHead> for Cause {
    ghost from_gives = { λ refusal cause. cause ≡ BadHead refusal };

    fn from(refusal: InvalidHead) -> Cause {
        Cause::BadHead(refusal)
    }
}

impl From<BufferTooShort> for Cause {
    ghost from_gives = { λ refusal cause. cause ≡ ShortBuffer refusal };

    fn from(refusal: BufferTooShort) -> Cause {
        Cause::ShortBuffer(refusal)
    }
}

impl From<InvalidGetRange> for Cause {
    ghost from_gives = { λ refusal cause. cause ≡ BadRange refusal };

    fn from(refusal: InvalidGetRange) -> Cause {
        Cause::BadRange(refusal)
    }
}

impl From<AlignOverflow> for Cause {
    ghost from_gives = { λ refusal cause. cause ≡ RoundingOverflow refusal };

    fn from(refusal: AlignOverflow) -> Cause {
        Cause::RoundingOverflow(refusal)
    }
}

impl From<StoreFailure> for Cause {
    ghost from_gives = { λ refusal cause. cause ≡ StoreFailed refusal };

    fn from(refusal: StoreFailure) -> Cause {
        Cause::StoreFailed(refusal)
    }
}

// A refusal where it arises.
impl From<Cause> for Fault {
    ghost from_gives = { λ cause fault. (fault.cause ≡ cause) × (fault.layers ≡ 0) };

    fn from(cause: Cause) -> Fault {
        Fault::new(cause)
    }
}
