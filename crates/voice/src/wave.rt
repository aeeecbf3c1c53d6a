// A wave buffer: where its samples are, which of them play, and how it loops.
ghost use Rattle.std.specs.Prelude.{◌≡◌};
ghost use Rattle.voice.specs.Wave.{parse_of, both_fit, offsets_valid};

use crate::{ADPCM, PCM_FLOAT, PCM_INT16};
use adpcm::Sample;

// `loop_count` is the 32 bits of the Rust's i32.
#[derive(Clone, Copy, Default)]
pub struct WaveBuffer {
    pub addr: u64,
    pub size: u64,
    pub start: u32,
    pub end: u32,
    pub looping: bool,
    pub end_of_stream: bool,
    pub loop_count: u32,
    pub context: u64,
    pub loop_start: u32,
    pub loop_end: u32,
    pub pending: bool,
}

impl WaveBuffer {
    // The wave buffer of a record of 0x38 bytes.
    pub fn parse(w: &[u8]) -> WaveBuffer
        ensures { result ≡ parse_of w.now }
    {
        WaveBuffer {
            addr: fields::u64_at(w, 0x00),
            size: fields::u64_at(w, 0x08),
            start: fields::u32_at(w, 0x10),
            end: fields::u32_at(w, 0x14),
            looping: fields::flag_at(w, 0x18),
            end_of_stream: fields::flag_at(w, 0x19),
            loop_count: fields::u32_at(w, 0x1c),
            context: fields::u64_at(w, 0x20),
            loop_start: fields::u32_at(w, 0x30),
            loop_end: fields::u32_at(w, 0x34),
            pending: true,
        }
    }

    // Whether start and end lie within the size, by format. A format that is not known has no offsets to hold to.
    pub fn offsets_valid(self, format: u32) -> bool
        ensures { result ≡ offsets_valid self format }
    {
        let size = self.size;
        match format {
            PCM_INT16 => both_fit(self.start as u64 * 2, self.end as u64 * 2, size),
            PCM_FLOAT => both_fit(self.start as u64 * 4, self.end as u64 * 4, size),
            ADPCM => {
                let start = adpcm::adpcm_size(Sample(self.start as u64));
                let end = adpcm::adpcm_size(Sample(self.end as u64));
                both_fit(start.0, end.0, size)
            }
            _ => true,
        }
    }
}

fn both_fit(start: u64, end: u64, size: u64) -> bool
    ensures { result ≡ both_fit start end size }
{
    start <= size && end <= size
}
