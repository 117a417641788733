// The expansion of a block into the tables of a program.
#![tactic(auto)]
