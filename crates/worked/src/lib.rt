// Document 01's marked examples W1 to W14: the list is in specs/Examples.antt, the theorem on it in proofs/Worked.antt.
#![tactic(auto)]
