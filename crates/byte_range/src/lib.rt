// Bytes from one to another. There is no code; the definitions are in specs/, their laws in proofs/.
#![tactic(auto)]
