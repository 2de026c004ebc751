// Reads requests from standard input, one a line, and prints what comes of each.
//
// Each line is `SIZE PART_SIZE RANGE`, as crate `planning` reads it. A line that is no request is said to be
// none, and the rest goes on.
#![tactic(auto)]

mod show;
mod tally;

use lines::for_each_line;
use planning::{Plan, read_request, words_of};
use std::io;
use std::io::BufReader;
use std::str::Utf8Error;
use tally::{Said, Tally};

// Prints what one line comes to. A line that is no text is no request.
fn answer(rt: &HostRuntime, number: u64, line: Result<&str, Utf8Error>) -> io::Result<Said> {
    let Ok(text) = line else {
        println!(rt; "line {number}:\n    no request: the line is no text in UTF-8\n")?;
        return Ok(Said::NoRequest);
    };
    let line = text.trim_end();
    let words = words_of(rt.alloc(), line)?;
    if words.is_empty() {
        return Ok(Said::Nothing);
    }
    println!(rt; "line {number}: {line}")?;
    match read_request(words.as_slice()) {
        Err(fault) => {
            println!(rt; "    no request: {fault}\n")?;
            Ok(Said::NoRequest)
        }
        Ok(request) => {
            let plan = Plan::of(request);
            show::plan(rt, plan, request.part_size)?;
            Ok(Said::Request(plan))
        }
    }
}

fn main(rt: HostRuntime) -> anyhow::Result<()> {
    let mut tally = Tally::new();
    let input = BufReader::new(rt.alloc(), rt.stdin())?;
    for_each_line(rt.alloc(), input, |number, line| {
        tally.count(answer(&rt, number, line)?);
        Ok(())
    })?;
    println!(rt; "{tally}")?;
    Ok(())
}
