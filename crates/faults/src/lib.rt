// Every refusal there is: its cause, and how many layers it came up through.
//
// Uses `ranges` and `records`, whose own refusals it takes over. Every crate above may use it.
// Promises: each cause has its number, reason and values of the closed list, and a refusal of a crate below
// becomes its own cause; a fault that passes a layer keeps its cause and counts one layer more.
#![tactic(auto)]

mod cause;
mod conversions;
mod fault;
mod messages;
#[cfg(test)]
mod tests;

pub use cause::{Cause, StoreFailure};
pub use fault::Fault;
