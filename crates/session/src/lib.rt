// One session in compact arrays.
#![tactic(auto)]

pub mod banks;
pub mod changes;
pub mod placed;
pub mod slots;
pub mod stamps;
pub mod state;
