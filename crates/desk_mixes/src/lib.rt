// The update of mixes: its records, and then every mix's offset.
#![tactic(auto)]

mod mixes;
mod offsets;

pub use mixes::update_mixes;
