// A request, and the ways in which a line is none.
ghost use Rattle.std.specs.Prelude.{◌≡◌};
ghost use Rattle.planning.specs.declared.request.NoRequest.TheVariants.{BadPartSize};

use ranges::{GetRange, InvalidCachePartSize, PartSize};

// What is asked of an object of this size, kept in parts of that size.
#[derive(Clone, Copy, Debug, PartialEq, Eq)]
pub struct Request {
    pub object_size: u64,
    pub part_size: PartSize,
    pub range: GetRange,
}

// What a word of a request stands for.
#[derive(Clone, Copy, Debug, PartialEq, Eq)]
pub enum Field {
    ObjectSize,
    PartSize,
    // `all`, `from` or `tail`
    Kind,
    // the first byte, after `from`
    Start,
    // where the range stops, after `to`
    End,
    // how many bytes, after `tail`
    Length,
}

// The first thing that is wrong with a line, from the left.
#[derive(Clone, Copy, Debug, PartialEq, Eq)]
pub enum NoRequest {
    // the line ends where this word is due
    Missing(Field),
    // the word is no decimal number, or one above 2^64 - 1
    NotANumber(Field),
    // refusal 1
    BadPartSize(InvalidCachePartSize),
    // the third word is none of `all`, `from` and `tail`
    UnknownRange,
    // another word than `to` follows the start
    NoTo,
    // words follow the request
    Surplus,
}

impl From<InvalidCachePartSize> for NoRequest {
    ghost from_gives = { λ bad e. e ≡ BadPartSize bad };

    fn from(bad: InvalidCachePartSize) -> NoRequest {
        NoRequest::BadPartSize(bad)
    }
}
