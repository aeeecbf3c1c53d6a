// Whole rows: of a voice that is stored, and of a state by its parameters. The crate is its specs/.
#![tactic(auto)]
