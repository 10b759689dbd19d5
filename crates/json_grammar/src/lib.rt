// The grammar of JSON (RFC 8259), and a recogniser of it. There is no code; the definitions are in specs/, that they agree is in proofs/.
#![tactic(auto)]
