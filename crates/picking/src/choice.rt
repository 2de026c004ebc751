// The decisions of picking.
ghost use Rattle.std.specs.Prelude.{◌≡◌, ◌≤ℤ◌, ◌<ℤ◌};
ghost use Rattle.picking.specs.Picks.{target_of};

// What picking goes down to: nine tenths of the maximum.
pub fn eviction_target(maximum: u32) -> u64
    ensures { result ≡ target_of maximum }
{
    9 * maximum as u64 / 10
}

// Of two places the one whose time is earlier, of equal times the first. By themselves, so that no goal has a whole
// table in it.
pub(crate) fn used_earlier(first: usize, first_time: i64, second: usize, second_time: i64) -> usize
    ensures first { first_time ≤ℤ second_time → result ≡ first }
    ensures second { second_time <ℤ first_time → result ≡ second }
{
    if first_time <= second_time {
        first
    } else {
        second
    }
}
