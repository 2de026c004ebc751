// What a call may do with the cache, decided by its tag alone.
//
// Uses `records` and, below it, `ranges`. Every crate above may use it.
// Promises: a policy gives one tag always the same action. The default policies give those of the tables of
// docs/RULES.md, a fixed policy those that it was made with. By the tables no untagged call and none for
// the log touches the cache, and a get that is made again is never answered from what is held.
#![tactic(auto)]

mod action;
mod get_policy;
mod put_policy;
mod rules;
#[cfg(test)]
mod tests;

pub use action::{GetAction, HeadAction, PutAction};
pub use get_policy::{DefaultGetPolicy, FixedGetPolicy, GetPolicy};
pub use put_policy::{CachePutConfig, DefaultPutPolicy, FixedPutPolicy, PutPolicy};
pub use rules::policies_keep_their_rules;
