// Cutting a range with the parts of an object.
ghost use Rattle.std.specs.Prelude.{◌≡◌, ◌+◌, ◌-◌, ◌<◌, ◌≤◌, MatchOption};
ghost use Rattle.ranges.specs.Cut.{IsPart, IsPiece, Steps};
ghost use Rattle.ranges.specs.Pieces.{Split, Met};
ghost use Rattle.std.specs.Iterator.{at_most};

use crate::byte_range::ByteRange;
use crate::part_size::PartSize;
use crate::pieces::{Piece, Pieces};

// The first part that the range meets, and the first behind its end.
#[tactic(auto, using(crate::proofs::Cuts::met))]
fn parts_met(range: ByteRange, part_size: PartSize) -> (u64, u64)
    ensures { Met part_size.bytes range.start range.end result.0 result.1 }
{
    let bytes = part_size.get();
    (range.start() / bytes, range.end().div_ceil(bytes))
}

// The range cut with each part that it meets.
pub fn split_range_into_parts(range: ByteRange, part_size: PartSize) -> Pieces
    ensures of { (result.range ≡ range) × (result.part_size ≡ part_size) }
    ensures split { Split part_size.bytes range.start range.end result.len }
{
    let (first, past) = parts_met(range, part_size);
    Pieces {
        range,
        part_size,
        first,
        len: past - first,
    }
}

impl Pieces {
    // How many there are.
    pub fn len(&self) -> u64
        ensures { result ≡ self.now.len }
    {
        self.len
    }

    // The range that is cut.
    pub fn range(&self) -> ByteRange
        ensures { result ≡ self.now.range }
    {
        self.range
    }

    // The size of the parts that cut it.
    pub fn part_size(&self) -> PartSize
        ensures { result ≡ self.now.part_size }
    {
        self.part_size
    }

    // The i-th part that the range meets, and where it begins.
    #[tactic(auto, using(crate::proofs::Cuts::part_small, crate::proofs::Cuts::part_met))]
    fn part(&self, i: u64) -> (u64, u64)
        requires { i < self.now.len }
        ensures { IsPart self.now i result.0 result.1 }
    {
        let part = self.first + i;
        (part, part * self.part_size.get())
    }

    // The i-th piece, counted from 0, where there is one.
    pub fn get(&self, i: u64) -> Option<Piece>
        ensures { MatchOption result (self.now.len ≤ i) (λ q. (i < self.now.len) × IsPiece self.now i q) }
    {
        if i >= self.len {
            return None;
        }
        let (part, begin) = self.part(i);
        let start = self.range.start().saturating_sub(begin);
        let end = (self.range.end() - begin).min(self.part_size.get());
        Some(Piece {
            part_id: part as usize,
            start: start as usize,
            end: end as usize,
        })
    }

    // Over the pieces, from the first on.
    pub fn iter(&self) -> PiecesIter
        ensures { (result.pieces ≡ self.now) × (result.next ≡ 0) }
    {
        PiecesIter {
            pieces: *self,
            next: 0,
        }
    }
}

// Gives the pieces of a range one after the other. `next` is a number, since a piece is worked out from its own.
#[derive(Clone, Copy, Debug, PartialEq, Eq)]
pub struct PiecesIter {
    pieces: Pieces,
    next: u64,
}

impl Iterator for PiecesIter {
    type Item = Piece;

    ghost next_gives = { λ s r t. (t.pieces ≡ s.pieces) × Steps s.pieces s.next r t.next };

    ghost remaining = { λ s. at_most (s.pieces.len - s.next) };

    fn next(&mut self) -> Option<Piece> {
        let piece = self.pieces.get(self.next)?;
        self.next += 1;
        Some(piece)
    }
}
