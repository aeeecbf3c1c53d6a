// What `fetch` of mixer.rs reads and how it moves a voice's position, without a byte of sample memory: the plan of a fetch.
// The crate `sound` performs a plan's acts on the bytes.
#![tactic(auto)]

mod after;
mod attempt;
mod rounds;

ghost use Rattle.std.specs.Prelude.{◌≡◌};

use adpcm::Sample;
pub use attempt::{Attempt, plan_decode};
pub use rounds::{Plan, Step, begins, plan_fetch, plan_round};

// What a fetch takes from its voice and from the render and does not change. The ranges of sample memory are lent beside it.
#[derive(Clone, Copy)]
pub struct Source {
    pub format: u32,
    pub channels: u32,
    pub decoding: u32,
    pub data_source: u64,
    pub buffers_v2: bool,
}

// What a round reads of sample memory, with the samples that it makes of it for each channel.
#[derive(Clone, Copy)]
pub enum Decode {
    Nothing,
    // PCM of a width in bytes: width, address, samples.
    Pcm(u32, u64, u32),
    // ADPCM on channel 0: samples wanted, address, bytes, the first sample's place.
    Adpcm(u32, u64, u64, Sample),
    // A format that is not known: samples.
    Silence(u32),
}

// One round: an ADPCM context, where one is read first, by its address; then a decode.
#[derive(Clone, Copy)]
pub struct Act {
    pub context: Option<u64>,
    pub decode: Decode,
}
