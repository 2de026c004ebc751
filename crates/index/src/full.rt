// Why a key is not tracked.
use std::error::Error;
use std::fmt;

// A new key found 256 tracked.
#[derive(Clone, Copy, Debug, PartialEq, Eq)]
pub struct IndexFull;

impl fmt::Display for IndexFull {
    fn fmt<W: fmt::Write>(&self, f: &mut fmt::Formatter<W>) -> fmt::Result {
        write!(f, "256 keys are tracked")
    }
}

impl Error for IndexFull {}
