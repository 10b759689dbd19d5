// Lists: the elements that pass a test, lists that rise, counts. There is no code; the definitions are in specs/, their laws in proofs/.
#![tactic(auto)]
