// An update of two states that differ at most in sound, and what it makes of one voice: the crate is its specs/ and proofs/.
#![tactic(auto)]
