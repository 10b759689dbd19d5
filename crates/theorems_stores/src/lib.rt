// What stores give; no code.
#![tactic(auto)]
