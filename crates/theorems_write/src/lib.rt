// What writing gives; no code.
#![tactic(auto)]
