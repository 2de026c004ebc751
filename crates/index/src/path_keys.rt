// Removing every key of a path.
ghost use Rattle.std.specs.Prelude.{◌≡◌};
ghost use Rattle.cache.specs.Keys.{key_of, path_bytes};
ghost use Rattle.index.specs.Parts.{part_number, smallest_part};
ghost use Rattle.index.specs.Table.{IsTable, PathRemoved};

use crate::index::Index;
use cache::CacheKey;
use ranges::PartID;
use records::Path;

// The number of the part, where the key is of a part of the path.
fn part_of(key: &CacheKey, path: &Path) -> Option<PartID>
    ensures { result ≡ part_number (path_bytes path.now) (key_of key.now) }
{
    match key {
        CacheKey::Part(p, number) if p == path => Some(*number),
        _ => None,
    }
}

impl Index {
    // The head first, then the parts upward.
    pub fn remove_path(&mut self, path: Path)
        ensures answer { PathRemoved (path_bytes path) self.old self.new }
        ensures table { IsTable self.old }
        ensures after { IsTable self.new }
    {
        let _ = self.remove_entry(&CacheKey::Head(path));
        while let Some(part) = self.smallest_part(&path) {
            let _ = self.remove_entry(&CacheKey::Part(path, part));
        }
    }

    // The tracked part of a path with the smallest number. The step is written out, where `min` would hide it, so that a
    // must-fail edit can turn it alone.
    fn smallest_part(&self, path: &Path) -> Option<PartID>
        ensures smallest { result ≡ smallest_part (path_bytes path.now) self.now }
        ensures table { IsTable self.now }
    {
        self.table
            .records
            .iter()
            .filter_map(|record| part_of(&record.key, path))
            .reduce(|m, n| m.min(n))
    }
}
