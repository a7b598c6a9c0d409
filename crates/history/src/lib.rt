// Definitions and theorems only: what the accepted records mean, and document 01's answers as functions of them.
#![tactic(auto)]
