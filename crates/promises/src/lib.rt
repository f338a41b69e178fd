// Statements only: what is promised, over the definitions and the contracts of the crates below.
#![tactic(auto)]
