// The console's text language: lines taken out of what was read, what a request comes to, and the answers as text.
#![tactic(auto)]

pub mod lines;
pub mod output;
pub mod respond;
pub mod say;
