// Judging: a command by document 01's lines, and a stored record on the state.
#![tactic(auto)]

pub mod answers;
pub mod judge;
pub mod refusals;
pub mod settings;
pub mod take;
