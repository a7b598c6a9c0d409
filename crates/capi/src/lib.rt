// The calls for C: each is a proved call; a status and a listing's end cross as numbers, the console's language as text.
#![tactic(auto)]

pub mod calls;
pub mod crossing;
pub mod language;
pub mod list;
