// The index as a value.
use crate::table::KeyTable;
use std::marker::Model;

// At most 256 keys, none twice, and the sum of their sizes. A contract sees the list of its entries.
#[derive(Drop)]
pub struct Index {
    pub(crate) table: KeyTable,
    pub(crate) total: u128,
}

impl Model for Index {
    ghost use Rattle.std.specs.Prelude.{List};
    ghost use Rattle.cache.specs.Tracking.{Entry};

    ghost Value = { List Entry };

    ghost use Rattle.index.specs.Indexes.{entries_in, IsIndex};

    ghost view = { entries_in };

    ghost invariant = { IsIndex };
}
