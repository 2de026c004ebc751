// Saves and deletes of an evicting cache.
ghost use Rattle.std.specs.Prelude.{◌≡◌, ◌≤◌, ℕ, false, List, length, MatchBool};
ghost use Rattle.std.specs.Fn.{FnOnceReturnsAtMut};
ghost use Rattle.stored_head.specs.Heads.{data_of, Stored};
ghost use Rattle.cache.specs.Keys.{key_of, head_key, part_key, path_bytes};
ghost use Rattle.index.specs.Table.{tracks};
ghost use Rattle.evictor.specs.Evicts.{SavesBy, EvictingSaves, EvictingDeletes, Room};
ghost use Rattle.evictor.specs.States.{state_of};

use crate::evictor::Evictor;
use cache::{CacheKey, ForgetfulCache, LocalCacheStorage};
use faults::{Cause, Fault};
use hosts::Host;
use ranges::PartID;
use records::{Head, Path};
use stored_head::stored_len;

impl<C: ForgetfulCache, H: Host> Evictor<C, H> {
    // Whether a key is tracked, or can be.
    fn has_room(&self, key: &CacheKey) -> bool
        ensures room { MatchBool result (Room (key_of key.now) self.now.index) ((tracks (key_of key.now) self.now.index ≡ false) × (length self.now.index ≡ 256)) }
        ensures few { length self.now.index ≤ 256 }
    {
        self.index.records().len() < 256 || self.index.is_tracked(key)
    }

    // Refuses a new key that finds 256 tracked before anything goes below; an accepted save of so many bytes is noted.
    fn save_with<F: FnOnce(&mut C) -> Result<(), Fault>>(
        &mut self,
        key: CacheKey,
        size: usize,
        save: F,
    ) -> Result<(), Fault>
        requires { F.IsAlwaysCallable save }
        ensures saves { SavesBy C.LocalCacheStorage.sense C.ForgetfulCache.drops H.Host.draws H.Host.times (FnOnceReturnsAtMut F.FnOnce save) (state_of self.old) (state_of self.new) (key_of key) size result }
        ensures few { length self.old.index ≤ 256 }
    {
        if !self.has_room(&key) {
            return Err(Fault::new(Cause::CacheRefused));
        }
        save(&mut self.inner)?;
        self.note_save(key, size);
        Ok(())
    }

    pub(crate) fn save_head(&mut self, path: Path, head: &Head) -> Result<(), Fault>
        ensures saves { (form : List ℕ) × Stored (data_of head.now) form × EvictingSaves C.LocalCacheStorage.sense C.ForgetfulCache.drops H.Host.draws H.Host.times (state_of self.old) (state_of self.new) (head_key (path_bytes path)) form result }
        ensures few { length self.old.index ≤ 256 }
    {
        self.save_with(CacheKey::Head(path), stored_len(head), |inner| {
            inner.save_head(path, head)
        })
    }

    pub(crate) fn save_part(&mut self, path: Path, part: PartID, bytes: &[u8]) -> Result<(), Fault>
        ensures saves { EvictingSaves C.LocalCacheStorage.sense C.ForgetfulCache.drops H.Host.draws H.Host.times (state_of self.old) (state_of self.new) (part_key (path_bytes path) part) bytes.now result }
        ensures few { length self.old.index ≤ 256 }
    {
        self.save_with(CacheKey::Part(path, part), bytes.len(), |inner| {
            inner.save_part(path, part, bytes)
        })
    }

    pub(crate) fn delete(&mut self, path: Path)
        ensures { EvictingDeletes C.LocalCacheStorage.sense (state_of self.old) (state_of self.new) (path_bytes path) }
    {
        self.inner.delete(path);
        self.index.remove_path(path);
    }
}
