// Theorems of comparing two files; no code.
#![tactic(auto)]
