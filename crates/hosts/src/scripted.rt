// A host that reads a lent list.
ghost use Rattle.std.specs.Prelude.{◌≡◌};
ghost use Rattle.hosts.specs.Numbers.{LeftOver, first_number, numbers_left};

use crate::host::Host;
use crate::remainder::left_over;

// Each request takes the first number that is left, and 0 where none is.
#[derive(Clone, Copy, Debug, PartialEq, Eq)]
pub struct ScriptedHost<'a> {
    left: &'a [i64],
}

impl<'a> ScriptedHost<'a> {
    pub fn new(numbers: &'a [i64]) -> ScriptedHost<'a>
        ensures { result.left.now ≡ numbers.now }
    {
        ScriptedHost { left: numbers }
    }

    fn take(&mut self) -> i64
        ensures value { result ≡ first_number self.old.left.now }
        ensures left { self.new.left.now ≡ numbers_left self.old.left.now }
    {
        match self.left {
            [first, rest @ ..] => {
                self.left = rest;
                *first
            }
            [] => 0,
        }
    }
}

impl<'a> Host for ScriptedHost<'a> {
    ghost times = { λ s r t. (r ≡ first_number s.left.now) × (t.left.now ≡ numbers_left s.left.now) };

    ghost draws = { λ s n r t. LeftOver (first_number s.left.now) n r × (t.left.now ≡ numbers_left s.left.now) };

    fn time(&mut self) -> i64 {
        self.take()
    }

    fn draw(&mut self, n: usize) -> usize {
        left_over(self.take(), n)
    }
}
