// Sessions with song sections in them, and what their replies, rounds and frames depend on: the crate is its specs/ and proofs/.
#![tactic(auto)]
