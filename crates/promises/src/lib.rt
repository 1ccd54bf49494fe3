// The three demands in one place, and the examples that are proved: no code.
#![tactic(auto)]
