// Giving up keys.
ghost use Rattle.std.specs.Prelude.{◌≡◌, ℕ};
ghost use Rattle.cache.specs.Keys.{key_of};
ghost use Rattle.index.specs.Table.{entries_of, IsTable};
ghost use Rattle.evictor.specs.Evicts.{Forgets, Forgettable, Evicts, Follows, Room};
ghost use Rattle.evictor.specs.States.{state_of};

use crate::evictor::Evictor;
use cache::{CacheKey, ForgetfulCache, LocalCacheStorage};
use hosts::Host;
use index::{Index, KeyRecord};
use picking::{eviction_target, pick_evict_targets};

// Drops the picked keys below and removes them, in their order.
fn forget<C: ForgetfulCache>(inner: &mut C, index: &mut Index, picked: &[KeyRecord])
    requires { Forgettable index.old (entries_of picked.now) }
    ensures forgets { Forgets C.LocalCacheStorage.sense C.ForgetfulCache.drops inner.old index.old (entries_of picked.now) inner.new index.new }
    ensures table { IsTable index.old → IsTable index.new }
{
    for record in picked {
        inner.drop_entry(record.key);
        let _ = index.remove_entry(&record.key);
    }
}

impl<C: ForgetfulCache, H: Host> Evictor<C, H> {
    // Where the total exceeds the maximum, keys go until nine tenths of it are left.
    fn evict(&mut self)
        ensures { Evicts C.LocalCacheStorage.sense C.ForgetfulCache.drops H.Host.draws (state_of self.old) (state_of self.new) }
    {
        if self.index.total() <= self.maximum as u128 {
            self.targets.clear();
            return;
        }
        let target = eviction_target(self.maximum);
        pick_evict_targets(&mut self.host, &self.index, target, &mut self.targets);
        forget(&mut self.inner, &mut self.index, self.targets.as_slice());
    }

    // Notes an accepted save of so many bytes, and evicts.
    pub(crate) fn note_save(&mut self, key: CacheKey, size: usize)
        requires { Room (key_of key) self.old.index }
        ensures { Follows C.LocalCacheStorage.sense C.ForgetfulCache.drops H.Host.draws H.Host.times (state_of self.old) (state_of self.new) (key_of key) size }
    {
        let time = self.host.time();
        self.index.track_entry_accessed(key, size, time).unwrap();
        self.evict();
    }
}
