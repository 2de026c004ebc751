// The key records, in the order in which they were appended but for filled gaps.
ghost use Rattle.std.specs.Prelude.{◌≡◌, ◌+◌, ◌<◌, vec_len, vec_capacity, nat_le, slice_index_or};
ghost use Rattle.std.specs.Borrow.{sem, follows};
ghost use Rattle.std.specs.Vec.{with_item};
ghost use Rattle.std.specs.List.{swap_remove};
ghost use Rattle.index.specs.contracts.table.KeyTable.{the_row};
ghost use Rattle.index.specs.contracts.record.KeyRecord.{the_row as record-row};

use crate::record::KeyRecord;

#[derive(Drop)]
pub(crate) struct KeyTable {
    pub(crate) records: Vec<KeyRecord>,
}

impl KeyTable {
    // Whether 256 keys are tracked.
    pub(crate) fn is_full(&self) -> bool
        ensures { result ≡ nat_le 256 (vec_len self.now.records) }
    {
        self.records.len() >= 256
    }

    // Lends one record.
    pub(crate) fn at(&mut self, i: usize) -> &mut KeyRecord
        requires { i < vec_len self.old.records }
        ensures* lent { sem 𝓛 (follows the_row record-row self.entry.ghost_name result.ghost_name (λ w. record { records = with_item self.old.records i w })) }
        ensures value { result.now ≡ slice_index_or self.old.records.items i result.now }
    {
        &mut self.records[i]
    }

    // Takes one record out, and puts the last one into the gap.
    pub(crate) fn take_out(&mut self, i: usize) -> KeyRecord
        requires { i < vec_len self.old.records }
        ensures value { result ≡ slice_index_or self.old.records.items i result }
        ensures items { self.new.records.items ≡ swap_remove self.old.records.items i result }
        ensures len { vec_len self.new.records + 1 ≡ vec_len self.old.records }
        ensures capacity { vec_capacity self.new.records ≡ vec_capacity self.old.records }
    {
        self.records.swap_remove(i)
    }
}
