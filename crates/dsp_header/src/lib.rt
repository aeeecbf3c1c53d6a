// The header of a DSP file, 96 bytes, big-endian: read from bytes and written to them.
#![tactic(auto)]

mod big;
mod read;
mod write;

ghost use Rattle.std.specs.Prelude.{◌≡◌};

use adpcm::AdpcmContext;
pub use read::{padding_is_zero, read_header};
pub use write::put_header;

// The bytes that a header takes; a file's data begins there.
pub const HEADER_BYTES: usize = 96;

// The values of a header, in the file's sequence. The padding behind them is no value.
#[derive(Clone, Copy, Default)]
pub struct DspHeader {
    pub samples: u32,
    pub nibbles: u32,
    pub rate: u32,
    pub loop_flag: u16,
    pub format: u16,
    pub loop_start: u32,
    pub loop_end: u32,
    pub address: u32,
    pub coefficients: [i16; 16],
    pub gain: u16,
    // The first frame's header, with the two samples before the first, the later first.
    pub start_context: AdpcmContext,
    // The same for the loop's start.
    pub loop_context: AdpcmContext,
}
