// Making an evicting cache, and looking at what it tracks.
ghost use Rattle.std.specs.Prelude.{◌≡◌, [], IfOk};
ghost use Rattle.index.specs.Table.{entries_of, IsTable};
ghost use Rattle.evictor.specs.Evicts.{State};
ghost use Rattle.evictor.specs.States.{state_of};

use crate::evicting_cache::EvictingCache;
use crate::evictor::Evictor;
use index::{Index, KeyRecord};
use picking::Targets;
use std::alloc::{AllocError, Global};

impl<C: Drop, H: Drop> EvictingCache<C, H> {
    // Over a cache and a host, with nothing tracked, so that nothing counts as held. Fails only for want of memory.
    pub fn new(
        heap: Global,
        inner: C,
        host: H,
        maximum: u32,
    ) -> Result<EvictingCache<C, H>, AllocError>
        ensures { IfOk result (λ s. state_of s.evictor ≡ record { inner = inner; host = host; entries = []; maximum = maximum; evicted = [] }) }
    {
        let index = Index::new(heap)?;
        let targets = Targets::new(heap)?;
        Ok(EvictingCache {
            evictor: Evictor {
                inner,
                host,
                index,
                targets,
                maximum,
            },
        })
    }
}

impl<C, H> EvictingCache<C, H> {
    // The tracked keys in their order.
    pub fn tracked(&self) -> &[KeyRecord]
        ensures entries { entries_of result.now ≡ (state_of self.now.evictor).entries }
        ensures table { IsTable (state_of self.now.evictor).entries }
    {
        self.evictor.index.records()
    }

    // The keys that the last accepted save evicted, in their order.
    pub fn evicted(&self) -> &[KeyRecord]
        ensures { entries_of result.now ≡ (state_of self.now.evictor).evicted }
    {
        self.evictor.targets.as_slice()
    }
}

impl<C, H: Drop> EvictingCache<C, H> {
    // Goes on with another host.
    pub fn set_host(&mut self, host: H)
        ensures { state_of self.new.evictor ≡ record { inner = self.old.evictor.inner; host = host; entries = (state_of self.old.evictor).entries; maximum = self.old.evictor.maximum; evicted = (state_of self.old.evictor).evicted } }
    {
        self.evictor.host = host;
    }
}
