// A refusal on its way up through the layers.
ghost use Rattle.std.specs.Prelude.{◌≡◌, ◌+◌, ◌-◌, ◌^◌, min};

use crate::cause::Cause;

// What a refused call answers.
#[derive(Clone, Copy, Debug, PartialEq, Eq)]
pub struct Fault {
    pub cause: Cause,
    // how many cached layers it came up through
    pub layers: u64,
}

impl Fault {
    // A refusal where it arises.
    pub fn new(cause: Cause) -> Fault
        ensures { (result.cause ≡ cause) × (result.layers ≡ 0) }
    {
        Fault { cause, layers: 0 }
    }

    // The same refusal one layer further up; at 2^64 - 1 the count stays.
    pub fn up(self) -> Fault
        ensures { (result.cause ≡ self.cause) × (result.layers ≡ min (self.layers + 1) (2 ^ 64 - 1)) }
    {
        Fault {
            layers: self.layers.saturating_add(1),
            ..self
        }
    }
}
