// What differs between two lists of records: definitions and laws only.
#![tactic(auto)]
