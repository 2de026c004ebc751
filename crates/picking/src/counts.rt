// What is left of the table.
ghost use Rattle.std.specs.Prelude.{◌≡◌, ◌&&◌, length, nat_le, nat_lt};
ghost use Rattle.cache.specs.Tracking.{sizes};
ghost use Rattle.picking.specs.Left.{left_in};

use crate::candidates::Candidates;

impl<'a> Candidates<'a> {
    // How many keys are not picked. A `for` over the table, the form that docs/DECISIONS.md names for it and the next.
    fn available_count(&self) -> usize
        ensures { result ≡ length (left_in self.now) }
    {
        let mut count = 0;
        for (_, picked) in self.keys.iter().zip(self.picked.iter()) {
            if !*picked {
                count += 1;
            }
        }
        count
    }

    // The sum of their sizes: of 256 keys it may pass 64 bits.
    fn remaining_size(&self) -> u128
        ensures { result ≡ sizes (left_in self.now) }
    {
        let mut sum = 0;
        for (key, picked) in self.keys.iter().zip(self.picked.iter()) {
            if !*picked {
                sum += key.size as u128;
            }
        }
        sum
    }

    // Whether another key is picked: more than the target remains, and two keys are left to choose from.
    pub(crate) fn goes_on(&self, target: u64) -> bool
        ensures { result ≡ (nat_lt target (sizes (left_in self.now)) && nat_le 2 (length (left_in self.now))) }
    {
        self.remaining_size() > target as u128 && self.available_count() >= 2
    }
}
