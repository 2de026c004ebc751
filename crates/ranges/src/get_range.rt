// A request's range, and the refusals of this crate.

// What a request asks for. Numbers count bytes from the object's beginning, a Suffix's from its end.
#[derive(Clone, Copy, Debug, PartialEq, Eq)]
pub enum GetRange {
    // the whole object
    All,
    // the bytes from the first number to before the second
    Bounded(u64, u64),
    // the bytes from this one on
    Offset(u64),
    // the last bytes, this many or all there are
    Suffix(u64),
}

// Refusal 1: no part size.
#[derive(Clone, Copy, Debug, PartialEq, Eq)]
pub struct InvalidCachePartSize {
    pub requested: u64,
}

// Refusal 6: no byte of the object is asked for.
#[derive(Clone, Copy, Debug, PartialEq, Eq)]
pub enum InvalidGetRange {
    StartTooLarge { requested: u64, length: u64 },
    Inconsistent { start: u64, end: u64 },
}

// Refusal 7: this number rounds up past 2^64 - 1.
#[derive(Clone, Copy, Debug, PartialEq, Eq)]
pub struct AlignOverflow {
    pub requested: u64,
}
