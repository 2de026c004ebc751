// What an evicting cache asks of the machine that it runs on: times, and draws of an index.
//
// Uses nothing. `picking` and `evictor` are proved for every host.
// Promises: a host gives signed times in any order and, for n of 1 and more, a draw below n. Two hosts that can
// be run again: one counts, one reads a lent list; what each gives is exactly said (`hosts_are_exact`).
#![tactic(auto)]

mod counting;
mod host;
mod laws;
mod remainder;
mod scripted;
#[cfg(test)]
mod tests;

pub use counting::CountingHost;
pub use host::Host;
pub use laws::hosts_are_exact;
pub use scripted::ScriptedHost;
