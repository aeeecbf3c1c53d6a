// Whether the rows of each kind are whole: of voices, mixes, sinks, and splitters with destinations.
#![tactic(auto)]

mod desk;
mod limits;
mod voices;

pub use desk::{lists_whole, mixes_whole, sinks_whole};
pub use voices::voices_whole;
