// A range in its written form, and what is wrong with a line, for a person to read.
ghost use Rattle.std.specs.Prelude.{Some};
ghost use Rattle.planning.specs.Messages.{written, field_name, fault_message};

use crate::request::{Field, NoRequest};
use ranges::GetRange;
use std::error::Error;
use std::fmt;

// A range as a line writes it.
#[derive(Clone, Copy, Debug, PartialEq, Eq)]
pub struct Written(pub GetRange);

impl fmt::Display for Written {
    ghost output = { λ w. Some (written w.0) };

    fn fmt<W: fmt::Write>(&self, f: &mut fmt::Formatter<W>) -> fmt::Result {
        match self.0 {
            GetRange::All => write!(f, "all"),
            GetRange::Bounded(start, end) => write!(f, "from {start} to {end}"),
            GetRange::Offset(start) => write!(f, "from {start}"),
            GetRange::Suffix(length) => write!(f, "tail {length}"),
        }
    }
}

impl fmt::Display for Field {
    ghost output = { λ x. Some (field_name x) };

    fn fmt<W: fmt::Write>(&self, f: &mut fmt::Formatter<W>) -> fmt::Result {
        match self {
            Field::ObjectSize => write!(f, "the object size (word 1)"),
            Field::PartSize => write!(f, "the part size (word 2)"),
            Field::Kind => write!(f, "the word all, from or tail (word 3)"),
            Field::Start => write!(f, "the start (word 4)"),
            Field::End => write!(f, "the end (word 6)"),
            Field::Length => write!(f, "the length (word 4)"),
        }
    }
}

impl fmt::Display for NoRequest {
    ghost output = { λ e. Some (fault_message e) };

    fn fmt<W: fmt::Write>(&self, f: &mut fmt::Formatter<W>) -> fmt::Result {
        match self {
            NoRequest::Missing(field) => write!(f, "the line ends before {field}"),
            NoRequest::NotANumber(field) => write!(
                f,
                "{field} is no decimal number from 0 to 18446744073709551615"
            ),
            NoRequest::BadPartSize(bad) => write!(f, "refused 1: {bad}"),
            NoRequest::UnknownRange => write!(f, "word 3 is none of all, from and tail"),
            NoRequest::NoTo => write!(f, "only the word to may follow the start (word 4)"),
            NoRequest::Surplus => write!(f, "words follow the end of the request"),
        }
    }
}

impl Error for NoRequest {}
