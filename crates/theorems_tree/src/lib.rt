// The tree of an accepted file: each block once, cuts and bounds. There is no code.
#![tactic(auto)]
