// What comes of a request: the bytes of its answer, and what goes down to the store when no head is held.
ghost use Rattle.std.specs.Prelude.{◌≡◌};
ghost use Rattle.planning.specs.Planned.{At, Answers, Fetches, refused_held, refused_not_held};

use crate::cut::Cut;
use crate::request::Request;
use ranges::{
    AlignOverflow, ByteRange, GetRange, InvalidGetRange, PartSize, align_get_range,
    canonicalize_range,
};

// What goes down when no head is held, and the body that comes back.
#[derive(Clone, Copy, Debug, PartialEq, Eq)]
pub struct Prefetch {
    pub request: GetRange,
    pub body: ByteRange,
}

// Why the open that goes down fills no part.
#[derive(Clone, Copy, Debug, PartialEq, Eq)]
pub enum NoPrefetch {
    // refusal 7, nothing goes down
    Overflows(AlignOverflow),
    // the store below refuses the rounded request as 6
    Refused {
        request: GetRange,
        why: InvalidGetRange,
    },
    // refusal 8: the body begins inside a part
    OffMultiple(Prefetch),
}

// What comes of a request: its answer when a head is held, which is the bytes that are asked for, in pieces, or
// refusal 6; and before it, when no head is held, the prefetch, whose body begins with a part.
#[derive(Clone, Copy, Debug, PartialEq, Eq)]
pub struct Plan {
    pub answer: Result<Cut, InvalidGetRange>,
    pub prefetch: Result<Prefetch, NoPrefetch>,
}

// Whether a part begins at byte `n`.
fn at_part(n: u64, part_size: PartSize) -> bool
    ensures { At part_size.bytes n result }
{
    part_size.round_down(n) == n
}

// The bytes that `request` asks for, cut with the parts.
fn answer_to(request: Request) -> Result<Cut, InvalidGetRange>
    ensures { Answers request result }
{
    let range = canonicalize_range(request.range, request.object_size)?;
    Ok(Cut::new(range, request.part_size))
}

// The rounded request, and what a store below that has the object would answer it.
fn prefetch_of(asked: Request) -> Result<Prefetch, NoPrefetch>
    ensures { Fetches asked result }
{
    let request = align_get_range(asked.range, asked.part_size).map_err(NoPrefetch::Overflows)?;
    let body = canonicalize_range(request, asked.object_size).map_err(|why| NoPrefetch::Refused {
        request,
        why,
    })?;
    let prefetch = Prefetch { request, body };
    if at_part(body.start(), asked.part_size) {
        Ok(prefetch)
    } else {
        Err(NoPrefetch::OffMultiple(prefetch))
    }
}

impl Plan {
    // What comes of `request`.
    pub fn of(request: Request) -> Plan
        ensures answer { Answers request result.answer }
        ensures prefetch { Fetches request result.prefetch }
    {
        Plan {
            answer: answer_to(request),
            prefetch: prefetch_of(request),
        }
    }

    // Whether an open with a held head is refused.
    pub fn refused_held(&self) -> bool
        ensures { result ≡ refused_held self.now.answer }
    {
        self.answer.is_err()
    }

    // Whether an open with no head held is refused: by the prefetch, or by the answer after it.
    pub fn refused_not_held(&self) -> bool
        ensures { result ≡ refused_not_held self.now.prefetch self.now.answer }
    {
        self.prefetch.is_err() || self.refused_held()
    }
}
