// A range in pieces, each with its place in the object.
ghost use Rattle.std.specs.Prelude.{◌≡◌, ◌<◌, ◌≤◌, MatchOption};
ghost use Rattle.ranges.specs.Pieces.{Split};
ghost use Rattle.planning.specs.Placed.{PlacedAt};

use ranges::{ByteRange, PartSize, Piece, Pieces, split_range_into_parts};

// The pieces of a range.
#[derive(Clone, Copy, Debug, PartialEq, Eq)]
pub struct Cut {
    pieces: Pieces,
}

// A piece, and which bytes of the object it is: from `start` to before `end`.
#[derive(Clone, Copy, Debug, PartialEq, Eq)]
pub struct PlacedPiece {
    pub piece: Piece,
    pub start: u64,
    pub end: u64,
}

impl Cut {
    // `range` cut with each part that it meets.
    pub fn new(range: ByteRange, part_size: PartSize) -> Cut
        ensures of { (result.pieces.range ≡ range) × (result.pieces.part_size ≡ part_size) }
        ensures split { Split part_size.bytes range.start range.end result.pieces.len }
    {
        Cut {
            pieces: split_range_into_parts(range, part_size),
        }
    }

    pub fn range(&self) -> ByteRange
        ensures { result ≡ self.now.pieces.range }
    {
        self.pieces.range()
    }

    // How many pieces there are.
    pub fn len(&self) -> u64
        ensures { result ≡ self.now.pieces.len }
    {
        self.pieces.len()
    }

    // The i-th piece, counted from 0, where there is one.
    pub fn get(&self, i: u64) -> Option<PlacedPiece>
        ensures { MatchOption result (self.now.pieces.len ≤ i) (λ q. (i < self.now.pieces.len) × PlacedAt self.now.pieces.part_size.bytes self.now.pieces.range.start self.now.pieces.range.end i q) }
    {
        let piece = self.pieces.get(i)?;
        let begin = piece.part_id as u64 * self.pieces.part_size().get();
        Some(PlacedPiece {
            piece,
            start: begin + piece.start as u64,
            end: begin + piece.end as u64,
        })
    }
}
