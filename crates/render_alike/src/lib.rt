// A render of two states that differ at most in sound: the crate is its specs/.
#![tactic(auto)]
