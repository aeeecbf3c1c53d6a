// Sessions, and what their replies, rounds and frames depend on: the crate is its specs/.
#![tactic(auto)]
