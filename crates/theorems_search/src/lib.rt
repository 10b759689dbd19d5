// The search of an accepted file, and what a search of any bytes depends on. There is no code.
#![tactic(auto)]
