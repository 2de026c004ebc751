// The parts of an evicting cache.
ghost use Rattle.index.specs.Table.{IsTable};
ghost use Rattle.std.proofs.Props.{props};

use index::Index;
use picking::Targets;

// A cache below, a host, what is tracked and what it may come to. Its contracts name the four ghost members of the
// two bounds each: a record of them would have to be filled from the same four every time.
#[derive(Drop)]
pub struct Evictor<C, H> {
    pub(crate) inner: C,
    pub(crate) host: H,
    pub(crate) index: Index,
    // room for the keys that are picked
    pub(crate) targets: Targets,
    pub(crate) maximum: u32,
    // every index is one, but that is seen only where the index is called
    ghost table: { IsTable index } by { Prim.hlevel props },
}
