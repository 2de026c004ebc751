// Caches that can be told what to forget.
ghost use Rattle.cache.specs.Keys.{Key, key_of};
ghost use Rattle.cache.specs.Caches.{Dropped};

use crate::key::CacheKey;
use crate::storage::LocalCacheStorage;

// A cache that can also drop one named head or part.
pub trait ForgetfulCache: LocalCacheStorage {
    // what dropping a key leaves
    ghost drops: { Self → Key → Self → Type 0 };

    fn drop_entry(&mut self, key: CacheKey)
        ensures held { Dropped (Self.LocalCacheStorage.sense.held self.old) (Self.LocalCacheStorage.sense.held self.new) (key_of key) }
        ensures state { drops self.old (key_of key) self.new };
}
