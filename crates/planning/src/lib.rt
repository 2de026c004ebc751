// What a request says that is written on a line, and what will come of it.
//
// Uses `ranges` and `lines`. Programs that take requests from people use it.
// A line is `SIZE PART_SIZE RANGE`, where RANGE is `all`, `from A to B`, `from A` or `tail N`; a word that
// begins with `#` begins a comment. Promises: `read_request` answers exactly the request that the words say,
// or the first thing that is wrong with them from the left; `Plan::of` answers exactly what an open of it
// comes to when a head is held, and what goes down when none is; a `Cut` has each piece at its place in the
// object; `words_of` answers the words of a line up to its comment, unless memory fails.
#![tactic(auto)]

mod cut;
mod exact;
mod messages;
mod plan;
mod request;
mod split;
mod words;

pub use cut::{Cut, PlacedPiece};
pub use exact::reading_is_exact;
pub use messages::Written;
pub use plan::{NoPrefetch, Plan, Prefetch};
pub use request::{Field, NoRequest, Request};
pub use split::words_of;
pub use words::read_request;
