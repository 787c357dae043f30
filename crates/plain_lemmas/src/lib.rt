//! Lemmas of lists, numbers, options and tests, for proofs of other crates, where the kit has none.
#![tactic(auto)]
