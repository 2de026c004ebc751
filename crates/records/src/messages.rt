// What the refusals print.
use crate::refused::{BufferTooShort, InvalidHead, InvalidPath};
use std::error::Error;
use std::fmt;

impl fmt::Display for InvalidPath {
    fn fmt<W: fmt::Write>(&self, f: &mut fmt::Formatter<W>) -> fmt::Result {
        let length = self.length;
        write!(f, "A path has 1 to 64 bytes, not {length}")
    }
}

impl fmt::Display for InvalidHead {
    fn fmt<W: fmt::Write>(&self, f: &mut fmt::Formatter<W>) -> fmt::Result {
        match self {
            InvalidHead::Size(size) => write!(f, "An object has at most 2^40 bytes, not {size}"),
            InvalidHead::Time(time) => write!(f, "A time is below 2^42 milliseconds, not {time}"),
            InvalidHead::ETag(length) => write!(f, "An e_tag has at most 64 bytes, not {length}"),
            InvalidHead::Version(length) => write!(
                f,
                "A version has at most 64 bytes, not {length}"
            ),
            InvalidHead::Attributes(count) => write!(
                f,
                "A head has at most 8 attributes, not {count}"
            ),
            InvalidHead::Key(length) => write!(
                f,
                "An attribute's key has 1 to 32 bytes, not {length}"
            ),
            InvalidHead::Value(length) => write!(
                f,
                "An attribute's value has at most 64 bytes, not {length}"
            ),
        }
    }
}

impl fmt::Display for BufferTooShort {
    fn fmt<W: fmt::Write>(&self, f: &mut fmt::Formatter<W>) -> fmt::Result {
        let length = self.length;
        let needed = self.needed;
        write!(f, "The buffer has {length} bytes where {needed} are needed")
    }
}

impl Error for InvalidPath {}

impl Error for InvalidHead {}

impl Error for BufferTooShort {}
