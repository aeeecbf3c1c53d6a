// A voice's rows in the state: its words, longs and floats.
#![tactic(auto)]

mod idle_row;
mod voice_row;
mod wave_row;

pub use idle_row::idle;
pub use voice_row::{load_voice, store_voice};
