// The evicting cache as a cache.
ghost use Rattle.evictor.specs.Senses.{evicting_sense};

use crate::evicting_cache::EvictingCache;
use cache::{ForgetfulCache, LocalCacheStorage};
use faults::Fault;
use hosts::Host;
use ranges::{PartID, Piece};
use records::{Head, Path};

impl<C: ForgetfulCache, H: Host> LocalCacheStorage for EvictingCache<C, H> {
    ghost sense = { evicting_sense C.LocalCacheStorage.sense C.ForgetfulCache.drops H.Host.draws H.Host.times };

    fn total(&self) -> u128 {
        self.evictor.index.total()
    }

    fn read_head(&mut self, path: Path) -> Option<Head> {
        self.evictor.read_head(path)
    }

    fn save_head(&mut self, path: Path, head: &Head) -> Result<(), Fault> {
        self.evictor.save_head(path, head)
    }

    fn read_part(&mut self, path: Path, piece: Piece, out: &mut [u8]) -> Option<usize> {
        self.evictor.read_part(path, piece, out)
    }

    fn save_part(&mut self, path: Path, part: PartID, bytes: &[u8]) -> Result<(), Fault> {
        self.evictor.save_part(path, part, bytes)
    }

    fn delete(&mut self, path: Path) {
        self.evictor.delete(path)
    }
}
