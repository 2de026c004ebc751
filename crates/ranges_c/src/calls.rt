// The calls: one for each kind of range, since C has no `GetRange`, and no unknown kind can be asked for.
// A request for all of an object has no number to round, and so no call that rounds it.
ghost use Rattle.ranges.specs.declared.get_range.GetRange.TheVariants.{All, Bounded, Offset, Suffix};
ghost use Rattle.ranges_c.specs.Answers.{Canonicalizes, Aligns, Splits};

use crate::refused::status_of;
use crate::serve::{align, canonicalize, split};
use ranges::GetRange;

#[unsafe(no_mangle)]
pub extern "C" fn ranges_canonicalize_all(size: u64, out: &mut [u8]) -> u64
    ensures { Canonicalizes All size out.old result out.new }
{
    status_of(canonicalize(GetRange::All, size, out))
}

#[unsafe(no_mangle)]
pub extern "C" fn ranges_canonicalize_bounded(
    start: u64,
    end: u64,
    size: u64,
    out: &mut [u8],
) -> u64
    ensures { Canonicalizes (Bounded start end) size out.old result out.new }
{
    status_of(canonicalize(GetRange::Bounded(start, end), size, out))
}

#[unsafe(no_mangle)]
pub extern "C" fn ranges_canonicalize_offset(start: u64, size: u64, out: &mut [u8]) -> u64
    ensures { Canonicalizes (Offset start) size out.old result out.new }
{
    status_of(canonicalize(GetRange::Offset(start), size, out))
}

#[unsafe(no_mangle)]
pub extern "C" fn ranges_canonicalize_suffix(length: u64, size: u64, out: &mut [u8]) -> u64
    ensures { Canonicalizes (Suffix length) size out.old result out.new }
{
    status_of(canonicalize(GetRange::Suffix(length), size, out))
}

#[unsafe(no_mangle)]
pub extern "C" fn ranges_align_bounded(start: u64, end: u64, part_size: u64, out: &mut [u8]) -> u64
    ensures { Aligns (Bounded start end) part_size out.old result out.new }
{
    status_of(align(GetRange::Bounded(start, end), part_size, out))
}

#[unsafe(no_mangle)]
pub extern "C" fn ranges_align_offset(start: u64, part_size: u64, out: &mut [u8]) -> u64
    ensures { Aligns (Offset start) part_size out.old result out.new }
{
    status_of(align(GetRange::Offset(start), part_size, out))
}

#[unsafe(no_mangle)]
pub extern "C" fn ranges_align_suffix(length: u64, part_size: u64, out: &mut [u8]) -> u64
    ensures { Aligns (Suffix length) part_size out.old result out.new }
{
    status_of(align(GetRange::Suffix(length), part_size, out))
}

#[unsafe(no_mangle)]
pub extern "C" fn ranges_split(
    start: u64,
    end: u64,
    part_size: u64,
    index: u64,
    out: &mut [u8],
) -> u64
    ensures { Splits start end part_size index out.old result out.new }
{
    status_of(split(start, end, part_size, index, out))
}
