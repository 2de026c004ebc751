// The size of a part, and rounding to its multiples.
ghost use Rattle.std.specs.Prelude.{◌≡◌, ◌^◌, ◌<◌, MatchOption, MatchResult};
ghost use Rattle.ranges.specs.Refusals.{of_part_size, invalid_part_size};
ghost use Rattle.ranges.specs.Rounding.{PartSized, Down, Up, Overflows};

use crate::get_range::InvalidCachePartSize;

// How many bytes each part of an object has, but for its last.
#[derive(Clone, Copy, Debug, PartialEq, Eq)]
pub struct PartSize {
    bytes: u64,
    ghost sized: { PartSized bytes },
}

impl PartSize {
    // A multiple of 1,024 from 1,024 to 16,384; anything else is refusal 1.
    pub fn new(bytes: u64) -> Result<PartSize, InvalidCachePartSize>
        ensures { MatchResult result (λ p. PartSized bytes × (p.bytes ≡ bytes)) (λ e. (PartSized bytes → ⊥) × (of_part_size e ≡ invalid_part_size bytes)) }
    {
        if (1024..=16384).contains(&bytes) && bytes.is_multiple_of(1024) {
            Ok(PartSize { bytes })
        } else {
            Err(InvalidCachePartSize { requested: bytes })
        }
    }

    // In bytes.
    pub fn get(self) -> u64
        ensures { result ≡ self.bytes }
    {
        self.bytes
    }

    // The largest multiple that is not beyond `n`.
    pub fn round_down(self, n: u64) -> u64
        ensures { Down self.bytes n result }
    {
        n - n % self.bytes
    }

    // The smallest multiple that is not before `n`, where a u64 holds it.
    #[tactic(auto, using(crate::proofs::Rounds::rest_here, crate::proofs::Rounds::rest_above, crate::proofs::Rounds::overflows_of))]
    pub fn round_up(self, n: u64) -> Option<u64>
        ensures { MatchOption result (Overflows self.bytes n) (λ m. Up self.bytes n m × (m < 2 ^ 64)) }
    {
        let rest = n % self.bytes;
        if rest == 0 {
            Some(n)
        } else {
            n.checked_add(self.bytes - rest)
        }
    }
}
