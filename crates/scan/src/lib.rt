// What the arrays ask for: the earliest cycle of a command, and the gap that asks for it.
#![tactic(auto)]

pub mod asks;
pub mod earliest;
pub mod rows;
pub mod steps;
pub mod timings;
