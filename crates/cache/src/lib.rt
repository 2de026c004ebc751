// What a cache is: a table of heads and parts that may forget.
//
// Uses `ranges`, `records`, `faults` and `stored_head`. Caches implement its traits, layers are proved against them.
// Promises: `LocalCacheStorage` is what every cache keeps, whatever it drops; `ForgetfulCache` adds that one named
// key can be dropped. Each says what its calls do exactly, and what follows for every cache.
#![tactic(auto)]

mod forgetful;
mod key;
mod laws;
mod storage;

pub use forgetful::ForgetfulCache;
pub use key::CacheKey;
pub use laws::keys_are_compared_exactly;
pub use storage::LocalCacheStorage;
