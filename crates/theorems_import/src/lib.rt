// What importing gives; no code.
#![tactic(auto)]
