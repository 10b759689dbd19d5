// The tree of a written file: its blocks keep the rules of the tree. There is no code.
#![tactic(auto)]
