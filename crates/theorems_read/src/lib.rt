// What reading front to back gives. There is no code.
#![tactic(auto)]
