// The request that goes down to the store when no head is held: rounded outward to whole parts.
ghost use Rattle.ranges.specs.Requests.{AlignedTo};

use crate::get_range::{AlignOverflow, GetRange};
use crate::part_size::PartSize;

// A start rounded down, an end or a Suffix's length rounded up; refusal 7 where that is no u64.
pub fn align_get_range(range: GetRange, part_size: PartSize) -> Result<GetRange, AlignOverflow>
    ensures { AlignedTo part_size.bytes range result }
{
    match range {
        GetRange::All => Ok(range),
        GetRange::Bounded(start, end) => {
            let end_aligned = part_size
                .round_up(end)
                .ok_or(AlignOverflow { requested: end })?;
            Ok(GetRange::Bounded(part_size.round_down(start), end_aligned))
        }
        GetRange::Offset(offset) => Ok(GetRange::Offset(part_size.round_down(offset))),
        GetRange::Suffix(length) => part_size
            .round_up(length)
            .map(GetRange::Suffix)
            .ok_or(AlignOverflow { requested: length }),
    }
}
