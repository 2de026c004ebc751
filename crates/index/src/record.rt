// One tracked key.
ghost use Rattle.std.specs.Prelude.{◌≡◌, ◌^◌, ◌<◌};

use cache::CacheKey;

// The size that it was appended with, and when it was last used.
#[derive(Clone, Copy, Debug, PartialEq, Eq)]
pub struct KeyRecord {
    pub key: CacheKey,
    pub size: usize,
    pub time: i64,
    ghost fits: { size < 2 ^ 64 },
}

impl KeyRecord {
    // Notes a use of the key.
    pub(crate) fn touch(&mut self, time: i64)
        ensures key { self.new.key ≡ self.old.key }
        ensures size { self.new.size ≡ self.old.size }
        ensures time { self.new.time ≡ time }
    {
        self.time = time;
    }
}
