// What is wrong with a line, for a person to read.
use crate::no_head::{NoBytes, NoHead, Wrong};
use std::fmt;

impl fmt::Display for Wrong {
    fn fmt<W: fmt::Write>(&self, f: &mut fmt::Formatter<W>) -> fmt::Result {
        match self {
            Wrong::NoEquals => write!(f, "it has no ="),
            Wrong::NotANumber => write!(
                f,
                "it has no decimal number from 0 to 18446744073709551615 behind its ="
            ),
            Wrong::Twice => write!(f, "an earlier word said the same"),
            Wrong::NoByte => write!(f, "a % has no two hex digits behind it"),
            Wrong::Limit(bad) => write!(f, "refused 3: {bad}"),
            Wrong::NoMemory => write!(f, "memory ran out"),
        }
    }
}

impl fmt::Display for NoHead {
    fn fmt<W: fmt::Write>(&self, f: &mut fmt::Formatter<W>) -> fmt::Result {
        match self {
            NoHead::Word(number, wrong) => write!(f, "word {number}: {wrong}"),
            NoHead::NoSize => write!(f, "no word says size="),
            NoHead::Limit(bad) => write!(f, "refused 3: {bad}"),
        }
    }
}

impl fmt::Display for NoBytes {
    fn fmt<W: fmt::Write>(&self, f: &mut fmt::Formatter<W>) -> fmt::Result {
        match self {
            NoBytes::Word(number) => write!(
                f,
                "number {number} is no decimal number from 0 to 255"
            ),
            NoBytes::NoMemory => write!(f, "memory ran out"),
        }
    }
}
