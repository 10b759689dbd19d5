// The layout of a file that the writer makes. No code: definitions, and laws that read back what is laid.
#![tactic(auto)]
