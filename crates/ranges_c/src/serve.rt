// The rules over a lent slice.
ghost use Rattle.std.specs.Prelude.{◌≡◌, ◌*◌, ◌≤◌, ◌++◌, length, drop};
ghost use Rattle.ranges_c.specs.Numbers.{in_bytes};
ghost use Rattle.ranges_c.specs.Answers.{numbers_of, CanonicalAnswer, AlignAnswer, SplitAnswer};

use crate::refused::Refused;
use crate::store::store;
use ranges::{
    ByteRange, GetRange, PartSize, align_get_range, canonicalize_range, split_range_into_parts,
};

// The canonical range: its start and its end.
pub(crate) fn canonicalize(range: GetRange, size: u64, out: &mut [u8]) -> Result<(), Refused>
    ensures { CanonicalAnswer range size out.old result out.new }
{
    if out.len() < 16 {
        return Err(Refused::SliceTooShort);
    }
    let bytes = canonicalize_range(range, size).map_err(Refused::Range)?;
    store(out, &[bytes.start(), bytes.end()]);
    Ok(())
}

// How many bytes the numbers of a request take. Not one function with the next: a list of them would be a buffer more.
fn room(range: GetRange) -> usize
    ensures { result ≡ 8 * length (numbers_of range) }
{
    match range {
        GetRange::All => 0,
        GetRange::Bounded(_, _) => 16,
        GetRange::Offset(_) | GetRange::Suffix(_) => 8,
    }
}

// Stores the numbers of a request.
fn store_request(out: &mut [u8], range: GetRange)
    requires { 8 * length (numbers_of range) ≤ length out.old }
    ensures { out.new ≡ in_bytes (numbers_of range) ++ drop (8 * length (numbers_of range)) out.old }
{
    match range {
        GetRange::All => store(out, &[]),
        GetRange::Bounded(start, end) => store(out, &[start, end]),
        GetRange::Offset(number) | GetRange::Suffix(number) => store(out, &[number]),
    }
}

// The rounded request: its numbers.
pub(crate) fn align(range: GetRange, part_size: u64, out: &mut [u8]) -> Result<(), Refused>
    ensures { AlignAnswer range part_size out.old result out.new }
{
    let part_size = PartSize::new(part_size).map_err(Refused::PartSize)?;
    if out.len() < room(range) {
        return Err(Refused::SliceTooShort);
    }
    let aligned = align_get_range(range, part_size).map_err(Refused::Align)?;
    store_request(out, aligned);
    Ok(())
}

// The number of pieces, and the piece with this index where there is one.
pub(crate) fn split(
    start: u64,
    end: u64,
    part_size: u64,
    index: u64,
    out: &mut [u8],
) -> Result<(), Refused>
    ensures { SplitAnswer start end part_size index out.old result out.new }
{
    let part_size = PartSize::new(part_size).map_err(Refused::PartSize)?;
    if out.len() < 32 {
        return Err(Refused::SliceTooShort);
    }
    let range = ByteRange::new(start, end).map_err(Refused::Range)?;
    let pieces = split_range_into_parts(range, part_size);
    match pieces.get(index) {
        Some(piece) => store(
            out,
            &[
                pieces.len(),
                piece.part_id as u64,
                piece.start as u64,
                piece.end as u64,
            ],
        ),
        None => store(out, &[pieces.len()]),
    }
    Ok(())
}
