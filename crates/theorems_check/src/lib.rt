// The rules of the format, and that the check accepts exactly the files that keep them. There is no code.
#![tactic(auto)]
