// Lines one after the other.
ghost use Rattle.std.specs.Prelude.{IfSome, OnOk};
ghost use Rattle.lines.specs.Visits.{VisitsLines};

use std::alloc::Global;
use std::io;
use std::io::BufRead;
use std::str::{Utf8Error, from_utf8};

// Calls `visit` with each line and its number, counted from 1, until it returns an error. A line may be any
// bytes, so that it is text or it is not; what stands behind the last line feed is a line unless it is empty.
#[tactic(auto, using(crate::proofs::Visiting::begins, crate::proofs::Visiting::ends))]
pub fn for_each_line<R, F>(heap: Global, input: R, mut visit: F) -> io::Result<()>
where
    R: BufRead + Drop,
    F: FnMut(u64, Result<&str, Utf8Error>) -> io::Result<()>,
    requires { F.IsAlwaysCallable visit }
    ensures { OnOk result (IfSome (R.remaining input) (VisitsLines F.step visit)) }
{
    for (i, line) in input.split(heap, b'\n').enumerate() {
        let bytes = line?;
        visit(i as u64 + 1, from_utf8(bytes.as_slice()))?;
    }
    Ok(())
}
