// What a line of the console's language asks: its words, the table of forms, and the request with its numbers.
#![tactic(auto)]

pub mod forms;
pub mod requests;
pub mod words;
