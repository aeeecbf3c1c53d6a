// The sections of a reply that hold a record for each pool, voice or effect, written into a lent slice.
#![tactic(auto)]

mod bytes;
mod effects;
mod pools;
mod voices;

pub use bytes::put_words;
pub use effects::write_effects;
pub use pools::write_pools;
pub use voices::write_voices;
