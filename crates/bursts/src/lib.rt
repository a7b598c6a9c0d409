// Document 02, request 2026-02: a list of commands in one call.
#![tactic(auto)]

pub mod burst;
pub mod pieces;
