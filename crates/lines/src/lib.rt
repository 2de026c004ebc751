// What programs that read lines share.
//
// Uses nothing but std. Programs that take lines from people use it, and the crates that read these lines.
// Promises: `for_each_line` calls a closure with each line of a reader in order, with its number from 1 on and
// as text or as none; `begins_comment` says whether a word begins with `#`; `number` reads exactly the decimal
// numbers of 64 bits; a `Counter` counts one more at a time and stays at 2^64 - 1.
#![tactic(auto)]

mod counter;
mod each;
#[cfg(test)]
mod tests;
mod word;

pub use counter::Counter;
pub use each::for_each_line;
pub use word::{begins_comment, number};
