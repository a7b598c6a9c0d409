// The calls of document 01 over a lent journal.
#![tactic(auto)]

pub mod answers;
pub mod calls;
