// What the refusals print.
ghost use Rattle.std.specs.Prelude.{Some};
ghost use Rattle.ranges.specs.Messages.{part_size_message, get_range_message, align_message};

use crate::get_range::{AlignOverflow, InvalidCachePartSize, InvalidGetRange};
use std::error::Error;
use std::fmt;

impl fmt::Display for InvalidCachePartSize {
    ghost output = { λ e. Some (part_size_message e) };

    fn fmt<W: fmt::Write>(&self, f: &mut fmt::Formatter<W>) -> fmt::Result {
        write!(
            f,
            "Part size {} is no multiple of 1024 from 1024 to 16384",
            self.requested
        )
    }
}

impl fmt::Display for InvalidGetRange {
    ghost output = { λ e. Some (get_range_message e) };

    fn fmt<W: fmt::Write>(&self, f: &mut fmt::Formatter<W>) -> fmt::Result {
        match self {
            InvalidGetRange::StartTooLarge { requested, length } => {
                write!(
                    f,
                    "Range start too large, requested: {requested}, length: {length}"
                )
            }
            InvalidGetRange::Inconsistent { start, end } => write!(
                f,
                "Range started at {start} and ended at {end}"
            ),
        }
    }
}

impl fmt::Display for AlignOverflow {
    ghost output = { λ e. Some (align_message e) };

    fn fmt<W: fmt::Write>(&self, f: &mut fmt::Formatter<W>) -> fmt::Result {
        write!(
            f,
            "Rounding {} up to a multiple of the part size passes 2^64 - 1",
            self.requested
        )
    }
}

impl Error for InvalidCachePartSize {}

impl Error for InvalidGetRange {}

impl Error for AlignOverflow {}
