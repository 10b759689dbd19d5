// The tree of a file's blocks and its rules. There is no code; the definitions are in specs/, their laws in proofs/.
#![tactic(auto)]
