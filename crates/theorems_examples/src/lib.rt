// The examples of docs/FORMAT.md as one table and one claim. There is no code.
#![tactic(auto)]
