// The pieces of a range, from their iterator.
use ranges::{ByteRange, PartSize, Piece, split_range_into_parts};
use std::test::Fail;

#[test]
fn pieces_in_order(rt: HostRuntime) -> Result<(), Fail> {
    let part_size = PartSize::new(1024).map_err(|_| Fail::new("no part size"))?;
    let range = ByteRange::new(1000, 1100).map_err(|_| Fail::new("no range"))?;
    let first = Piece {
        part_id: 0,
        start: 1000,
        end: 1024,
    };
    let last = Piece {
        part_id: 1,
        start: 0,
        end: 76,
    };
    let pieces: Vec<Piece> = split_range_into_parts(range, part_size)
        .iter()
        .collect(rt.alloc())?;
    assert_eq!(rt; pieces.as_slice(), [first, last].as_slice());
    Ok(())
}
