// Which keys an evicting cache gives up: of two drawn at random the one that was used earlier, again and again.
//
// Uses `hosts` for draws and `index` for the table of keys.
// Promises: the picked keys are those that the draws and the times say, in that order, for every host. A pick takes
// at most 128 draws, two rounds and two passes over the table.
#![tactic(auto)]

mod candidates;
mod choice;
mod counts;
mod drawing;
mod laws;
mod picks;
mod targets;

pub use choice::eviction_target;
pub use laws::picks_are_exact;
pub use picks::pick_evict_targets;
pub use targets::Targets;
