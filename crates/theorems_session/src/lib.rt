// What a writing session gives; no code.
#![tactic(auto)]
