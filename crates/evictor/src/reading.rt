// Reads of an evicting cache.
ghost use Rattle.std.specs.Prelude.{◌≡◌, ℕ, true, is_some};
ghost use Rattle.cache.specs.Keys.{key_of, head_key, part_key, path_bytes};
ghost use Rattle.cache.specs.Caches.{HeadRead, PartRead};
ghost use Rattle.index.specs.Table.{tracks};
ghost use Rattle.evictor.specs.Evicts.{EvictingReads, Noted, held_of};
ghost use Rattle.evictor.specs.States.{state_of};

use crate::evictor::Evictor;
use cache::{CacheKey, ForgetfulCache, LocalCacheStorage};
use hosts::Host;
use ranges::Piece;
use records::{Head, Path};

// The two reads are not one around a closure, as the saves are: after a call of a closure that captures `out`,
// nothing is known of `out`.
impl<C: ForgetfulCache, H: Host> Evictor<C, H> {
    // Sets the access time of a tracked key to the host's time.
    fn note_read(&mut self, key: &CacheKey)
        requires { tracks (key_of key.now) self.old.index ≡ true }
        ensures { Noted H.Host.times (state_of self.old) (state_of self.new) (key_of key.now) }
    {
        let time = self.host.time();
        let _ = self.index.set_access_time(key, time);
    }

    pub(crate) fn read_head(&mut self, path: Path) -> Option<Head>
        ensures answer { HeadRead (held_of C.LocalCacheStorage.sense (state_of self.old) (head_key (path_bytes path))) result }
        ensures state { EvictingReads C.LocalCacheStorage.sense H.Host.times (state_of self.old) (state_of self.new) (head_key (path_bytes path)) (is_some result) }
    {
        let key = CacheKey::Head(path);
        if !self.index.is_tracked(&key) {
            return None;
        }
        let head = self.inner.read_head(path)?;
        self.note_read(&key);
        Some(head)
    }

    pub(crate) fn read_part(&mut self, path: Path, piece: Piece, out: &mut [u8]) -> Option<usize>
        ensures answer { PartRead (held_of C.LocalCacheStorage.sense (state_of self.old) (part_key (path_bytes path) piece.part_id)) piece.start piece.end out.old out.new result }
        ensures state { EvictingReads C.LocalCacheStorage.sense H.Host.times (state_of self.old) (state_of self.new) (part_key (path_bytes path) piece.part_id) (is_some result) }
    {
        let key = CacheKey::Part(path, piece.part_id);
        if !self.index.is_tracked(&key) {
            return None;
        }
        let count = self.inner.read_part(path, piece, out)?;
        self.note_read(&key);
        Some(count)
    }
}
