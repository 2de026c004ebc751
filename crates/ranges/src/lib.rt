// Which bytes a request asks for, and how they are cut into parts.
//
// Uses nothing but std. Every other crate may use it.
// Promises, for every u64: `canonicalize_range` answers exactly the bytes that are asked for or refuses a
// bad range (6), `align_get_range` rounds outward to multiples of the part size or refuses (7), and
// `split_range_into_parts` cuts a range with each part that it meets. A `PartSize` is within its limits
// from its making on (1), and a `ByteRange` never runs backward.
#![tactic(auto)]

mod align;
mod byte_range;
mod canonical;
mod exact;
mod get_range;
mod messages;
mod part_size;
mod pieces;
mod split;

pub use align::align_get_range;
pub use byte_range::ByteRange;
pub use canonical::canonicalize_range;
pub use exact::definitions_are_exact;
pub use get_range::{AlignOverflow, GetRange, InvalidCachePartSize, InvalidGetRange};
pub use part_size::PartSize;
pub use pieces::{PartID, Piece, Pieces};
pub use split::{PiecesIter, split_range_into_parts};
