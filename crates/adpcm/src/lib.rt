// DSP-ADPCM: 4-bit samples in frames of 8 bytes, a header and 14 samples, high nibble first.
// A header has the scale in its low 4 bits and the predictor, which picks a pair of coefficients, above them.
#![tactic(auto)]

pub const ADPCM_SAMPLES_PER_FRAME: u64 = 14;

const ADPCM_NIBBLES_PER_FRAME: u64 = 16;

const ADPCM_BYTES_PER_FRAME: u64 = 8;

mod context;
mod decode;
mod frame;
mod places;
mod step;

pub use context::{AdpcmContext, coefficients, pair};
pub use decode::{AdpcmError, Decoded, adpcm_count, decode_adpcm, decode_adpcm_checked};
pub use places::{
    Byte, Nibble, Sample, adpcm_nibble, adpcm_nibble_byte, adpcm_size, adpcm_size_samples,
};
