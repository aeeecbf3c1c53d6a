// What each call answers and leaves: the crate is its specs/.
#![tactic(auto)]
