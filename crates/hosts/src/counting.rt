// A host that counts.
ghost use Rattle.std.specs.Prelude.{◌≡◌, ◌^◌, ◌<◌, pos};
ghost use Rattle.hosts.specs.Numbers.{LeftOver, counted_on};

use crate::host::Host;
use crate::remainder::left_over;
use std::marker::Model;

// From 0 to 2^63 - 1 and round: each request takes the next number.
#[derive(Clone, Copy, Debug, PartialEq, Eq)]
pub struct CountingHost {
    next: u64,
}

// In a contract it is the number that it gives next. That this is below 2^63 each request says again, since callers do
// not see the invariant.
impl Model for CountingHost {
    ghost use Rattle.std.specs.Prelude.{ℕ, ◌^◌, ◌<◌};

    ghost Value = { ℕ };

    ghost view = { λ h. h.next };

    ghost invariant = { λ h. h.next < 2 ^ 63 };

    ghost inverse = { λ n. record { next = n } };
}

impl CountingHost {
    pub fn new() -> CountingHost
        ensures { result ≡ 0 }
    {
        CountingHost { next: 0 }
    }

    fn take(&mut self) -> i64
        ensures { (result ≡ pos self.old) × (self.new ≡ counted_on self.old) × (self.old < 2 ^ 63) }
    {
        let number = self.next;
        self.next = (number + 1) % (1 << 63);
        number as i64
    }
}

impl Host for CountingHost {
    ghost times = { λ s r t. (r ≡ pos s) × (t ≡ counted_on s) × (s < 2 ^ 63) };

    ghost draws = { λ s n r t. LeftOver (pos s) n r × (t ≡ counted_on s) × (s < 2 ^ 63) };

    fn time(&mut self) -> i64 {
        self.take()
    }

    fn draw(&mut self, n: usize) -> usize {
        left_over(self.take(), n)
    }
}
