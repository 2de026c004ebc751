// What comes of a request, on one short line.
use planning::{Cut, NoPrefetch, PlacedPiece, Plan, Prefetch, Written};
use ranges::{ByteRange, InvalidGetRange, Piece};
use std::fmt;

// A value as a line says it.
#[derive(Clone, Copy)]
pub struct Short<T>(pub T);

// The four parts of a line.
impl fmt::Display for Short<Plan> {
    fn fmt<W: fmt::Write>(&self, f: &mut fmt::Formatter<W>) -> fmt::Result {
        let Plan { answer, prefetch } = self.0;
        let range = Short(answer.map(|cut| cut.range()));
        let body = ShortBody(prefetch);
        write!(f, "{range} | {} | {body} | ", Short(prefetch))?;
        match answer {
            Ok(cut) => write!(f, "{}", Short(cut)),
            Err(_) => write!(f, "-"),
        }
    }
}

// `start end`
impl fmt::Display for Short<ByteRange> {
    fn fmt<W: fmt::Write>(&self, f: &mut fmt::Formatter<W>) -> fmt::Result {
        write!(f, "{} {}", self.0.start(), self.0.end())
    }
}

// `6`, the reason and its numbers
impl fmt::Display for Short<InvalidGetRange> {
    fn fmt<W: fmt::Write>(&self, f: &mut fmt::Formatter<W>) -> fmt::Result {
        match self.0 {
            InvalidGetRange::StartTooLarge { requested, length } => {
                write!(f, "6 StartTooLarge {requested} {length}")
            }
            InvalidGetRange::Inconsistent { start, end } => {
                write!(f, "6 Inconsistent {start} {end}")
            }
        }
    }
}

// The bytes, or why there are none.
impl fmt::Display for Short<Result<ByteRange, InvalidGetRange>> {
    fn fmt<W: fmt::Write>(&self, f: &mut fmt::Formatter<W>) -> fmt::Result {
        match self.0 {
            Ok(range) => write!(f, "{}", Short(range)),
            Err(why) => write!(f, "{}", Short(why)),
        }
    }
}

// The rounded request, or `7` and the number that does not round.
impl fmt::Display for Short<Result<Prefetch, NoPrefetch>> {
    fn fmt<W: fmt::Write>(&self, f: &mut fmt::Formatter<W>) -> fmt::Result {
        match self.0 {
            Err(NoPrefetch::Overflows(overflow)) => write!(f, "7 {}", overflow.requested),
            Err(NoPrefetch::Refused { request, .. })
            | Err(NoPrefetch::OffMultiple(Prefetch { request, .. }))
            | Ok(Prefetch { request, .. }) => write!(f, "{}", Written(request)),
        }
    }
}

// What the store below answers it, with an `8` behind a body that begins inside a part.
#[derive(Clone, Copy)]
struct ShortBody(Result<Prefetch, NoPrefetch>);

impl fmt::Display for ShortBody {
    fn fmt<W: fmt::Write>(&self, f: &mut fmt::Formatter<W>) -> fmt::Result {
        match self.0 {
            Err(NoPrefetch::Overflows(_)) => write!(f, "-"),
            Err(NoPrefetch::Refused { why, .. }) => write!(f, "{}", Short(why)),
            Err(NoPrefetch::OffMultiple(prefetch)) => write!(f, "{} 8", Short(prefetch.body)),
            Ok(prefetch) => write!(f, "{}", Short(prefetch.body)),
        }
    }
}

// How many pieces, the first, the second and the last.
impl fmt::Display for Short<Cut> {
    fn fmt<W: fmt::Write>(&self, f: &mut fmt::Formatter<W>) -> fmt::Result {
        let cut = self.0;
        let len = cut.len();
        let [first, second, last] = [0, 1, len.saturating_sub(1)].map(|i| Short(cut.get(i)));
        write!(f, "{len} {first} {second} {last}")
    }
}

// A piece as `part:start-end`, or `-`.
impl fmt::Display for Short<Option<PlacedPiece>> {
    fn fmt<W: fmt::Write>(&self, f: &mut fmt::Formatter<W>) -> fmt::Result {
        match self.0 {
            None => write!(f, "-"),
            Some(placed) => {
                let Piece {
                    part_id,
                    start,
                    end,
                } = placed.piece;
                write!(f, "{part_id}:{start}-{end}")
            }
        }
    }
}
