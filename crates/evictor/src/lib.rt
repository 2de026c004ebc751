// A cache that keeps a bound: over any cache that can be told what to forget, it gives up what was used longest ago.
//
// Uses `cache`, `index`, `hosts` and `picking`, and below them `ranges`, `records`, `faults` and `stored_head`.
// Promises: the evicting cache is a cache again. What it tracks, what it asks of its host and what it drops are
// exactly what the rules say; its total is always the sum of the tracked sizes, and at most the maximum unless one
// key is left.
#![tactic(auto)]

mod evicting;
mod evicting_cache;
mod evictor;
mod looking;
mod reading;
mod saving;
mod storage;
#[cfg(test)]
mod tests;

pub use evicting_cache::EvictingCache;
