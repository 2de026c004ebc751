// Why a record is refused.

// Refusal 2: a path of this many bytes.
#[derive(Clone, Copy, Debug, PartialEq, Eq)]
pub struct InvalidPath {
    pub length: usize,
}

// Refusal 3: the number that is past a head's limits.
#[derive(Clone, Copy, Debug, PartialEq, Eq)]
pub enum InvalidHead {
    // an object of this size
    Size(u64),
    // this time
    Time(u64),
    // an e_tag of this many bytes
    ETag(usize),
    // a version of this many bytes
    Version(usize),
    // this many attributes
    Attributes(usize),
    // an attribute's key of this many bytes
    Key(usize),
    // an attribute's value of this many bytes
    Value(usize),
}

// Refusal 4: a buffer of `length` bytes where `needed` are needed.
#[derive(Clone, Copy, Debug, PartialEq, Eq)]
pub struct BufferTooShort {
    pub length: usize,
    pub needed: usize,
}
