// Reads requests from standard input and prints what comes of each on one short line, to be held to what
// tools/range_cases.py expects: answer | what goes down | its body | pieces.
#![tactic(auto)]

mod short;
#[cfg(test)]
mod tests;

use planning::{Plan, read_request, words_of};
use short::Short;
use std::io;
use std::io::{BufRead, BufReader};

fn show_case(rt: &HostRuntime, line: &str) -> io::Result<()> {
    let words = words_of(rt.alloc(), line)?;
    if words.is_empty() {
        return Ok(());
    }
    match read_request(words.as_slice()) {
        Ok(request) => println!(rt; "{}", Short(Plan::of(request))),
        Err(_) => println!(rt; "no request"),
    }
}

fn main(rt: HostRuntime) -> anyhow::Result<()> {
    for line in BufReader::new(rt.alloc(), rt.stdin())?.lines(rt.alloc()) {
        show_case(&rt, line?.as_str())?;
    }
    Ok(())
}
