//! Lemmas of lists and ranges that several crates cite. There is no code here: they stand in proofs/.
#![tactic(auto)]
