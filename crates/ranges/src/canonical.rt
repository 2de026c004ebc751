// The bytes that a request asks for, of an object whose size is known.
ghost use Rattle.ranges.specs.Requests.{Canonicalized};

use crate::byte_range::ByteRange;
use crate::get_range::{GetRange, InvalidGetRange};

// Exactly the bytes of the object that `range` asks for; an empty answer stands at the object's end.
pub fn canonicalize_range(range: GetRange, object_size: u64) -> Result<ByteRange, InvalidGetRange>
    ensures { Canonicalized range object_size result }
{
    match range {
        GetRange::All => ByteRange::new(0, object_size),
        GetRange::Bounded(start, _) | GetRange::Offset(start) if start >= object_size => {
            Err(InvalidGetRange::StartTooLarge {
                requested: start,
                length: object_size,
            })
        }
        GetRange::Bounded(start, end) if start >= end => {
            Err(InvalidGetRange::Inconsistent { start, end })
        }
        GetRange::Bounded(start, end) => ByteRange::new(start, end.min(object_size)),
        GetRange::Offset(start) => ByteRange::new(start, object_size),
        GetRange::Suffix(length) => ByteRange::new(object_size.saturating_sub(length), object_size),
    }
}
