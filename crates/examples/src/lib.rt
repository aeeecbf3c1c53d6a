// The worked examples: the crate is its specs/, and the proof that every row holds.
#![tactic(auto)]
