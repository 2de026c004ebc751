// The lines that are printed for a request.
use planning::{Cut, NoPrefetch, PlacedPiece, Plan, Prefetch, Written};
use ranges::{ByteRange, GetRange, PartSize, Piece};
use std::{fmt, io};

// How many pieces are printed of many: these from the first on, and these up to the last.
const FRONT: u64 = 6;

const BACK: u64 = 2;

// A range, and how many bytes it has.
#[derive(Clone, Copy)]
struct Span(ByteRange);

impl fmt::Display for Span {
    fn fmt<W: fmt::Write>(&self, f: &mut fmt::Formatter<W>) -> fmt::Result {
        let start = self.0.start();
        let end = self.0.end();
        let bytes = end - start;
        let unit = if bytes == 1 { "byte" } else { "bytes" };
        write!(f, "{start}..{end} ({bytes} {unit})")
    }
}

// Everything that comes of a request, and an empty line.
pub fn plan(rt: &HostRuntime, plan: Plan, part_size: PartSize) -> io::Result<()> {
    match plan.answer {
        Ok(cut) => println!(rt; "    answer     {}", Span(cut.range()))?,
        Err(why) => println!(rt; "    answer     refused 6: {why}")?,
    }
    prefetch(rt, plan, part_size)?;
    if let Ok(cut) = plan.answer {
        pieces(rt, &cut)?;
    }
    println!(rt; "")
}

// What comes of the open when no head is held: what goes down, the body that comes back, and the end.
fn prefetch(rt: &HostRuntime, plan: Plan, part_size: PartSize) -> io::Result<()> {
    let size = part_size.get();
    match plan.prefetch {
        Err(NoPrefetch::Overflows(overflow)) => {
            println!(rt; "    no head    refused 7, nothing goes down: {overflow}")
        }
        Err(NoPrefetch::Refused { request, why }) => {
            goes_down(rt, request)?;
            println!(rt; "               refused 6 by the store below: {why}")
        }
        Err(NoPrefetch::OffMultiple(Prefetch { request, body })) => {
            goes_down(rt, request)?;
            println!(rt;
                "               its body {} begins off a multiple of {size}",
                Span(body)
            )?;
            println!(rt; "               refused 8: the bytes cannot be filed under part numbers")
        }
        Ok(Prefetch { request, body }) => {
            goes_down(rt, request)?;
            println!(rt;
                "               its body {} begins at a multiple of {size}",
                Span(body)
            )?;
            // The body is read before the request is looked at.
            if plan.refused_held() {
                println!(rt; "               refused 6, as the answer is")?;
            }
            Ok(())
        }
    }
}

fn goes_down(rt: &HostRuntime, request: GetRange) -> io::Result<()> {
    println!(rt; "    no head    {} goes down", Written(request))
}

// The pieces of an answer: all of a few, the first and the last of many.
fn pieces(rt: &HostRuntime, cut: &Cut) -> io::Result<()> {
    let len = cut.len();
    if len == 0 {
        return println!(rt; "    pieces     no piece");
    }
    println!(rt; "    pieces     {len}")?;
    if len <= FRONT + BACK {
        return pieces_between(rt, cut, 0, len);
    }
    pieces_between(rt, cut, 0, FRONT)?;
    let left_out = len - FRONT - BACK;
    println!(rt; "        .. {left_out} pieces are left out ..")?;
    pieces_between(rt, cut, len - BACK, len)
}

// Room for every part number up to `last`.
fn width(last: u64) -> usize {
    match last {
        0..=999 => 3,
        1_000..=999_999 => 6,
        _ => 17,
    }
}

// A line for each piece from number `from` to before number `to`: an iterator would step over up to 2^54 others.
fn pieces_between(rt: &HostRuntime, cut: &Cut, from: u64, to: u64) -> io::Result<()> {
    let last = cut.get(cut.len().saturating_sub(1));
    let wide = last.map_or(1, |placed| width(placed.piece.part_id as u64));
    for i in from..to {
        if let Some(placed) = cut.get(i) {
            show_piece(rt, i, placed, wide)?;
        }
    }
    Ok(())
}

fn show_piece(rt: &HostRuntime, i: u64, placed: PlacedPiece, wide: usize) -> io::Result<()> {
    let Piece {
        part_id: part,
        start,
        end,
    } = placed.piece;
    let first = placed.start;
    let past = placed.end;
    println!(rt;
        "        piece {i:<wide$} part {part:<wide$} {start:>5}..{end:<5} bytes {first}..{past}"
    )
}
