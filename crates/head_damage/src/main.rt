// Damages stored heads, and prints how many of the damaged forms are still stored heads.
//
// A line of standard input is `bytes` and decimal numbers. Every truncation of these bytes is tried, and every
// other value of every byte. A head that loads is saved again, and the saved bytes have to load as the same
// bytes.
#![tactic(auto)]

mod count;
mod damage;
mod tries;

use damage::{changed, cut_short};
use head_text::{read_bytes, says_nothing};
use lines::for_each_line;
use std::io;
use std::io::BufReader;
use std::str::Utf8Error;

fn answer_bytes(rt: &HostRuntime, number: u64, bytes: &mut [u8]) -> io::Result<()> {
    let len = bytes.len();
    println!(rt; "line {number}: {len} bytes")?;
    let short = cut_short(bytes);
    println!(rt; "    cut short  {short}")?;
    let other = changed(bytes);
    println!(rt; "    changed    {other}")?;
    let astray = short.astray().saturating_add(other.astray());
    if astray == 0 {
        println!(rt; "    saved again, every one of them loads as the same bytes\n")
    } else {
        println!(rt; "    saved again, {astray} of them do not load as the same bytes\n")
    }
}

fn answer(rt: &HostRuntime, number: u64, line: Result<&str, Utf8Error>) -> io::Result<()> {
    let Ok(text) = line else {
        return println!(rt; "line {number}: no text in UTF-8\n");
    };
    let words: Vec<&str> = text.split_whitespace().collect(rt.alloc())?;
    if says_nothing(words.as_slice()) {
        return Ok(());
    }
    let ["bytes", numbers @ ..] = words.as_slice() else {
        return println!(rt; "line {number}: no bytes\n");
    };
    match read_bytes(rt.alloc(), numbers) {
        Err(fault) => println!(rt; "line {number}: no bytes: {fault}\n"),
        Ok(mut bytes) => answer_bytes(rt, number, bytes.as_mut_slice()),
    }
}

fn main(rt: HostRuntime) -> anyhow::Result<()> {
    let input = BufReader::new(rt.alloc(), rt.stdin())?;
    for_each_line(rt.alloc(), input, |number, line| answer(&rt, number, line))?;
    Ok(())
}
