// An update leaves a whole state whole: the crate is its specs/.
#![tactic(auto)]
