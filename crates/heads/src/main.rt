// Reads heads from standard input, one a line, and prints how each is stored.
//
// A line is a head as crate `head_text` reads it: what is stored for it is printed, and what that loads as. Or
// it is `bytes` and decimal numbers: what these load as is printed. A line that is neither is said to be none,
// and the rest goes on.
#![tactic(auto)]

mod show;
mod tally;

use head_text::{read_bytes, read_head, says_nothing};
use lines::for_each_line;
use std::io;
use std::io::BufReader;
use std::str::Utf8Error;
use tally::{Said, Tally};

// Prints how the head is stored that the words of a line say.
fn answer_head(rt: &HostRuntime, words: &[&str]) -> io::Result<Said> {
    match read_head(rt.alloc(), words) {
        Err(fault) => {
            println!(rt; "    no head: {fault}\n")?;
            Ok(Said::Neither)
        }
        Ok(head) => {
            show::stored(rt, &head)?;
            Ok(Said::Head)
        }
    }
}

// Prints the head that stored bytes load as.
fn answer_bytes(rt: &HostRuntime, numbers: &[&str]) -> io::Result<Said> {
    match read_bytes(rt.alloc(), numbers) {
        Err(fault) => {
            println!(rt; "    no bytes: {fault}\n")?;
            Ok(Said::Neither)
        }
        Ok(bytes) => {
            if show::loaded(rt, bytes.as_slice())? {
                Ok(Said::Stored)
            } else {
                Ok(Said::NoHead)
            }
        }
    }
}

// Prints what one line comes to. A line that is no text is neither.
fn answer(rt: &HostRuntime, number: u64, line: Result<&str, Utf8Error>) -> io::Result<Said> {
    let Ok(text) = line else {
        println!(rt; "line {number}:\n    no head: the line is no text in UTF-8\n")?;
        return Ok(Said::Neither);
    };
    let line = text.trim_end();
    let words: Vec<&str> = line.split_whitespace().collect(rt.alloc())?;
    if says_nothing(words.as_slice()) {
        return Ok(Said::Nothing);
    }
    println!(rt; "line {number}: {line}")?;
    match words.as_slice() {
        ["bytes", numbers @ ..] => answer_bytes(rt, numbers),
        others => answer_head(rt, others),
    }
}

fn main(rt: HostRuntime) -> anyhow::Result<()> {
    let mut tally = Tally::new();
    let input = BufReader::new(rt.alloc(), rt.stdin())?;
    for_each_line(rt.alloc(), input, |number, line| {
        tally.count(answer(&rt, number, line)?);
        Ok(())
    })?;
    println!(rt; "{tally}")?;
    Ok(())
}
