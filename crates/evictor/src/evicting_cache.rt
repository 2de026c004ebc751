// A cache that keeps a bound.
ghost use Rattle.std.specs.Prelude.{◌<◌, ◌≤◌, length};
ghost use Rattle.cache.specs.Tracking.{sizes};

use crate::evictor::Evictor;

// What is tracked comes to at most the maximum, unless one key is left.
#[derive(Drop)]
pub struct EvictingCache<C, H> {
    pub(crate) evictor: Evictor<C, H>,
    ghost bound: { 1 < length evictor.index → sizes evictor.index ≤ evictor.maximum },
}
