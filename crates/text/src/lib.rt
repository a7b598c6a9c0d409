// Lines of text in a buffer of a fixed size.
#![tactic(auto)]

pub mod lines;
