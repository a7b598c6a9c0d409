// Document 02, request 2026-01: the twenty gaps, straight from a data sheet's times.
#![tactic(auto)]

pub mod sheet;
