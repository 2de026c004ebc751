// What a cache holds values under.
ghost use Rattle.std.specs.Prelude.{◌≡◌};
ghost use Rattle.std.specs.Cmp.{on_equiv, on_per, partial_equiv_from_equiv};
ghost use Rattle.cache.specs.Keys.{key_of, key_path, same_key, path_bytes};
ghost use Rattle.cache.specs.SameKey.{same_key_equiv};

use ranges::PartID;
use records::Path;

// The head of an object, or one of its parts.
#[derive(Clone, Copy, Debug)]
pub enum CacheKey {
    Head(Path),
    Part(Path, PartID),
}

impl CacheKey {
    pub fn path(&self) -> Path
        ensures { path_bytes result ≡ key_path (key_of self.now) }
    {
        match self {
            CacheKey::Head(path) => *path,
            CacheKey::Part(path, _) => *path,
        }
    }
}

// Written out, so that contracts have a name for what it answers; a derived one has none.
impl PartialEq for CacheKey {
    ghost eq = { λ j k. same_key (key_of j) (key_of k) };

    ghost laws = { on_per key_of (partial_equiv_from_equiv same_key_equiv) };

    fn eq(&self, other: &CacheKey) -> bool {
        match (self, other) {
            (CacheKey::Head(p), CacheKey::Head(q)) => p == q,
            (CacheKey::Part(p, n), CacheKey::Part(q, m)) => n == m && p == q,
            _ => false,
        }
    }
}

impl Eq for CacheKey {
    ghost laws = { on_equiv key_of same_key_equiv };
}
