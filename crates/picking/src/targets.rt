// The picked keys.
ghost use Rattle.std.specs.Prelude.{◌≡◌, ◌<◌, [], ◌∷◌, ◌++◌, length, IfOk};

use index::KeyRecord;
use std::alloc::{AllocError, Global};
use std::marker::Model;

// In the order of picking, with room for 256. A contract sees the list of the records.
#[derive(Drop)]
pub struct Targets {
    records: Vec<KeyRecord>,
}

impl Model for Targets {
    ghost use Rattle.std.specs.Prelude.{◌≤◌, List, vec_capacity};
    ghost use Rattle.index.specs.declared.record.KeyRecord.{KeyRecord};

    ghost Value = { List KeyRecord };

    ghost view = { λ t. t.records.items };

    ghost invariant = { λ t. 256 ≤ vec_capacity t.records };
}

impl Targets {
    pub fn new(heap: Global) -> Result<Targets, AllocError>
        ensures { IfOk result (λ t. t ≡ []) }
    {
        Ok(Targets {
            records: Vec::with_capacity(heap, 256)?,
        })
    }

    pub fn as_slice(&self) -> &[KeyRecord]
        ensures { result.now ≡ self.now }
    {
        self.records.as_slice()
    }

    pub fn clear(&mut self)
        ensures { self.new ≡ [] }
    {
        self.records.clear();
    }

    pub(crate) fn push(&mut self, picked: KeyRecord)
        requires { length self.old < 256 }
        ensures { self.new ≡ self.old ++ picked ∷ [] }
    {
        self.records.push_reserved(picked);
    }
}
