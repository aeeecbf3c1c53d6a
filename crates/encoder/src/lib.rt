// DSP-ADPCM encoded: for each frame the header whose sum of squared differences is the least, and for each sample the nearest nibble.
#![tactic(auto)]

mod encode;
mod frame;

pub use encode::{EncodeError, encode_adpcm};
pub use frame::Encoding;
