// Definitions and theorems only: the customer's demands, over what the calls of the checker promise.
#![tactic(auto)]
