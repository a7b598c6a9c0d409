// Definitions and theorems only: what each call promises, for every state value and for every history that the state stands for.
#![tactic(auto)]
