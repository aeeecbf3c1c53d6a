// What the merged block of a title and a click track plays, voice by voice: the crate is its specs/ and proofs/.
#![tactic(auto)]
