// The range rules for callers in C: u64 numbers and one lent byte slice.
//
// Uses `ranges`. Nothing uses it: it is built as a static library, and include/ranges.h declares its calls.
// Promises of each call, for all numbers and every slice: its status, and every byte of the slice after it.
// Refusals come in the order 1 (part size), 4 (slice too short), then 6 (range) or 7 (rounding), and a
// refused call leaves the slice as it was.
#![tactic(auto)]

mod calls;
mod refused;
mod serve;
mod store;

pub use calls::{
    ranges_align_bounded, ranges_align_offset, ranges_align_suffix, ranges_canonicalize_all,
    ranges_canonicalize_bounded, ranges_canonicalize_offset, ranges_canonicalize_suffix,
    ranges_split,
};
