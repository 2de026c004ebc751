// A range in pieces, one for each part that it meets.
ghost use Rattle.std.specs.Prelude.{◌≡◌, ◌/◌, ◌^◌, ◌<◌};
ghost use Rattle.ranges.specs.Pieces.{part_count};

use crate::byte_range::ByteRange;
use crate::part_size::PartSize;

// Part n holds the object's bytes from n times the part size on.
pub type PartID = usize;

// The bytes of one part from `start` to before `end`, counted from the part's beginning.
#[derive(Clone, Copy, Debug, PartialEq, Eq)]
pub struct Piece {
    pub part_id: PartID,
    pub start: usize,
    pub end: usize,
}

// The pieces of a range, in order; made by `split_range_into_parts`.
#[derive(Clone, Copy, Debug, PartialEq, Eq)]
pub struct Pieces {
    pub(crate) range: ByteRange,
    pub(crate) part_size: PartSize,
    // the part that holds the range's first byte
    pub(crate) first: u64,
    pub(crate) len: u64,
    ghost begun: { first ≡ range.start / part_size.bytes },
    ghost counted: { len ≡ part_count part_size.bytes range.start range.end },
    ghost fits: { len < 2 ^ 64 },
}
