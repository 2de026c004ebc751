// The cache that a layer keeps parts and heads in.
ghost use Rattle.std.specs.Prelude.{◌≡◌, ℕ, List, is_some};
ghost use Rattle.stored_head.specs.Heads.{data_of, Stored};
ghost use Rattle.cache.specs.Keys.{head_key, part_key, path_bytes};
ghost use Rattle.cache.specs.Tracking.{Bounded};
ghost use Rattle.cache.specs.Caches.{CacheSense, Reads, Saves, Deletes, HeadRead, PartRead};

use faults::Fault;
use ranges::{PartID, Piece};
use records::{Head, Path};

// A table from keys to values that may forget.
pub trait LocalCacheStorage {
    // what its states mean, and what its calls do exactly
    ghost sense: { CacheSense Self };

    // The sum of the tracked sizes, 0 where the cache does not evict.
    fn total(&self) -> u128
        ensures { (result ≡ (sense.tracked self.now).total) × Bounded (sense.tracked self.now) };

    // The held head.
    fn read_head(&mut self, path: Path) -> Option<Head>
        ensures answer { HeadRead (sense.held self.old (head_key (path_bytes path))) result }
        ensures state { Reads sense self.old (head_key (path_bytes path)) (is_some result) self.new };

    // Holds a head, in its stored form.
    fn save_head(&mut self, path: Path, head: &Head) -> Result<(), Fault>
        ensures { (form : List ℕ) × Stored (data_of head.now) form × Saves sense self.old (head_key (path_bytes path)) form result self.new };

    // Puts the bytes of a held part from `piece.start` to before `piece.end` at the front of `out`, and answers
    // how many they are; nothing where the part ends before them or `out` is too short.
    fn read_part(&mut self, path: Path, piece: Piece, out: &mut [u8]) -> Option<usize>
        ensures answer { PartRead (sense.held self.old (part_key (path_bytes path) piece.part_id)) piece.start piece.end out.old out.new result }
        ensures state { Reads sense self.old (part_key (path_bytes path) piece.part_id) (is_some result) self.new };

    // Holds a part.
    fn save_part(&mut self, path: Path, part: PartID, bytes: &[u8]) -> Result<(), Fault>
        ensures { Saves sense self.old (part_key (path_bytes path) part) bytes.now result self.new };

    // Drops the head and every part of a path.
    fn delete(&mut self, path: Path)
        ensures { Deletes sense self.old (path_bytes path) self.new };
}
