// The keys of a table, and which of them are picked.
ghost use Rattle.std.specs.Prelude.{◌≡◌, ◌<◌, ◌≤◌, true, false, length, replicate, slice_index_or, slice_set};
ghost use Rattle.index.specs.Table.{entries_of, IsTable};

use index::{Index, KeyRecord};

// One mark for each place of the table, which has at most 256: an array, since picking allocates nothing.
#[derive(Clone, Copy)]
pub(crate) struct Candidates<'a> {
    pub(crate) keys: &'a [KeyRecord],
    pub(crate) picked: [bool; 256],
    ghost few: { length keys.now ≤ 256 },
    ghost whole: { length picked ≡ 256 },
}

impl<'a> Candidates<'a> {
    // Every key of an index, none picked.
    pub(crate) fn of(index: &'a Index) -> Candidates<'a>
        ensures keys { entries_of result.keys.now ≡ index.now }
        ensures picked { result.picked ≡ replicate 256 false }
        ensures table { IsTable index.now }
    {
        Candidates {
            keys: index.records(),
            picked: [false; 256],
        }
    }

    // Marks a key, and gives it.
    pub(crate) fn pick(&mut self, place: usize) -> KeyRecord
        requires { place < length self.old.keys.now }
        ensures key { result ≡ slice_index_or self.old.keys.now place result }
        ensures keys { self.new.keys.now ≡ self.old.keys.now }
        ensures picked { self.new.picked ≡ slice_set self.old.picked place true }
    {
        self.picked[place] = true;
        self.keys[place]
    }
}
