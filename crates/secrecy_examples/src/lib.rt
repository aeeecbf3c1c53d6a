// Sessions that are computed: the crate is its specs/.
#![tactic(auto)]
