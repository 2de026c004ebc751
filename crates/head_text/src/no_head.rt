// The ways in which words say no head, or no stored bytes.
ghost use Rattle.std.specs.Prelude.{◌≡◌};
ghost use Rattle.head_text.specs.declared.no_head.NoBytes.TheVariants as no_bytes;
ghost use Rattle.head_text.specs.declared.no_head.NoHead.TheVariants as no_head;
ghost use Rattle.head_text.specs.declared.no_head.Wrong.TheVariants as wrong;

use records::InvalidHead;
use std::alloc::{AllocError, AllocFailed};
use std::error::Error;

// What is wrong with a word.
#[derive(Clone, Copy, Debug, PartialEq, Eq)]
pub enum Wrong {
    // it has no `=`
    NoEquals,
    // no decimal number of 64 bits is behind the `=`
    NotANumber,
    // an earlier word said it
    Twice,
    // a `%` has no two hex digits behind it
    NoByte,
    // refusal 3
    Limit(InvalidHead),
    // memory ran out
    NoMemory,
}

// The first thing that is wrong with words that say no head.
#[derive(Clone, Copy, Debug, PartialEq, Eq)]
pub enum NoHead {
    // the word with this number, counted from 1
    Word(usize, Wrong),
    // no word says the size
    NoSize,
    // refusal 3, of the size or of the time
    Limit(InvalidHead),
}

// Why words say no bytes.
#[derive(Clone, Copy, Debug, PartialEq, Eq)]
pub enum NoBytes {
    // the word with this number, counted from 1, is no decimal number from 0 to 255
    Word(usize),
    // memory ran out
    NoMemory,
}

impl From<InvalidHead> for NoHead {
    ghost from_gives = { λ why e. e ≡ no_head.Limit why };

    fn from(why: InvalidHead) -> NoHead {
        NoHead::Limit(why)
    }
}

impl From<InvalidHead> for Wrong {
    ghost from_gives = { λ why e. e ≡ wrong.Limit why };

    fn from(why: InvalidHead) -> Wrong {
        Wrong::Limit(why)
    }
}

impl From<AllocError> for Wrong {
    ghost from_gives = { λ _ e. e ≡ wrong.NoMemory };

    fn from(_e: AllocError) -> Wrong {
        Wrong::NoMemory
    }
}

impl<T: Drop> From<AllocFailed<T>> for NoBytes {
    ghost from_gives = { λ _ e. e ≡ no_bytes.NoMemory };

    fn from(_e: AllocFailed<T>) -> NoBytes {
        NoBytes::NoMemory
    }
}

impl Error for Wrong {}

impl Error for NoHead {}

impl Error for NoBytes {}
