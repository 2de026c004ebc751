// The index of an evicting cache: which keys are tracked, how large they are and when they were last used.
//
// Uses `ranges` and `records` for part numbers and paths, and `cache` for keys. `picking` reads it, `evictor`
// changes it.
// Promises: contracts see an index as the list of its entries, at most 256 and no key twice; its total is always the
// sum of their sizes. A new key that finds 256 tracked is refused (`IndexFull`), and nothing changes.
#![tactic(auto)]

mod full;
mod index;
mod path_keys;
mod record;
mod table;
#[cfg(test)]
mod tests;
mod tracking;

pub use full::IndexFull;
pub use index::Index;
pub use record::KeyRecord;
