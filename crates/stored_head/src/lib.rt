// The form in which a cache keeps a head.
//
// Uses `ranges` and `records`.
// Promises: writing gives exactly the stored form of a head, or refuses a slice that is too short for it
// (4) and leaves it as it was; reading accepts exactly the stored forms of heads within their limits.
#![tactic(auto)]

mod attributes;
mod bytes;
mod form;
mod head;
mod laws;
mod loading;
mod local_cache_head;
mod numbers;
mod read;
mod reader;

pub use head::{save, stored_len};
pub use laws::stored_forms_are_exact;
pub use loading::load;
pub use local_cache_head::LocalCacheHead;
