// A voice and its rows are the same thing, both ways: the crate is its specs/.
#![tactic(auto)]
