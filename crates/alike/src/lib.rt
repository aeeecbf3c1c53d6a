// Two states that differ at most in sound, through updates and renders: the crate is its specs/.
#![tactic(auto)]
