// A run of bytes that does not run backward.
ghost use Rattle.std.specs.Prelude.{◌≡◌, ◌^◌, ◌<◌, ◌≤◌, MatchResult};
ghost use Rattle.ranges.specs.Refusals.{of_get_range, inconsistent};

use crate::get_range::InvalidGetRange;

// The bytes from `start` to before `end`.
#[derive(Clone, Copy, Debug, PartialEq, Eq)]
pub struct ByteRange {
    start: u64,
    end: u64,
    ghost forward: { start ≤ end },
    ghost fits: { end < 2 ^ 64 },
}

impl ByteRange {
    // A start above the end is refusal 6, Inconsistent.
    pub fn new(start: u64, end: u64) -> Result<ByteRange, InvalidGetRange>
        ensures { MatchResult result (λ b. (b.start ≡ start) × (b.end ≡ end) × (start ≤ end)) (λ e. (end < start) × (of_get_range e ≡ inconsistent start end)) }
    {
        if start > end {
            return Err(InvalidGetRange::Inconsistent { start, end });
        }
        Ok(ByteRange { start, end })
    }

    pub fn start(&self) -> u64
        ensures { result ≡ self.now.start }
    {
        self.start
    }

    pub fn end(&self) -> u64
        ensures { result ≡ self.now.end }
    {
        self.end
    }
}
