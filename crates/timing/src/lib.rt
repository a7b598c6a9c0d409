// What document 01 says about time: the command kinds, the two clocks, the openings, the rules' table.
#![tactic(auto)]

pub mod clocks;
pub mod editions;
pub mod kinds;
pub mod rules;
pub mod table;
