// A voice of mixer.rs: its wave buffers, its queue, what a render does before it fetches.
#![tactic(auto)]

mod play;
mod queue;
mod ready;
mod sound;
mod wave;

ghost use Rattle.std.specs.Prelude.{◌≡◌, false, pos};
ghost use Rattle.std.specs.Float.{fin};
ghost use Rattle.voice.specs.declared.play.Play.TheVariants.{Stopped};
ghost use Rattle.voice.specs.Voice.{has_destination, queue_of, with, with_queue};

pub use play::{Play, set_play};
pub use queue::{Queue, Spot, end_buffer, queue_at, spot_of};
pub use ready::{Flushed, Prepared, flush, prepare};
pub use sound::{History, Sound, silent, sound_after};
pub use wave::WaveBuffer;

pub const WAVE_BUFFERS: usize = 4;

pub const MAX_CHANNELS: usize = 6;
// The Rust's i32::MAX: a mix or a destination that names no mix.
pub const UNUSED_MIX: u32 = 0x7fff_ffff;

pub const UNUSED_SPLITTER: u32 = 0xffff_ffff;

pub const PCM_INT16: u32 = 2;

pub const PCM_FLOAT: u32 = 5;

pub const ADPCM: u32 = 6;

// The position side of the Rust's `Voice`. Its ADPCM context and history, which depend on sound, stand apart (`Sound`).
// An i32 of the Rust is held as its 32 bits; format and decoding, 8 and 16 bits there, are whole words.
#[derive(Clone, Copy, Default)]
pub struct Voice {
    pub in_use: bool,
    pub fresh: bool,
    pub play: Play,
    pub format: u32,
    pub sample_rate: u32,
    pub channels: u32,
    pub pitch: f32,
    pub volume: f32,
    pub previous_volume: f32,
    pub queued: u32,
    pub base_index: u32,
    pub flush: u32,
    pub decoding: u32,
    pub mix_id: u32,
    pub splitter_id: u32,
    pub channel_ids: [u32; 6],
    pub data_source: u64,
    pub buffers: [WaveBuffer; 4],
    pub valid: [bool; 4],
    pub index: u32,
    pub consumed: u32,
    pub offset: u32,
    pub played: u64,
    pub loops: u32,
    pub fraction: f32,
}

// Whether the voice has a mix or a splitter to go to.
pub fn has_destination(mix_id: u32, splitter_id: u32) -> bool
    ensures { result ≡ has_destination mix_id splitter_id }
{
    mix_id != UNUSED_MIX || splitter_id != UNUSED_SPLITTER
}

// The part of a voice that its queue of wave buffers is.
pub fn queue_of(v: Voice) -> Queue
    ensures { result ≡ queue_of v }
{
    let buffers = v.buffers;
    let valid = v.valid;
    Queue {
        buffers,
        valid,
        index: v.index,
        consumed: v.consumed,
        offset: v.offset,
        played: v.played,
        loops: v.loops,
    }
}

// The voice with another queue.
pub fn with_queue(v: Voice, q: Queue) -> Voice
    ensures { result ≡ with_queue q v }
{
    let buffers = q.buffers;
    let valid = q.valid;
    Voice {
        buffers,
        valid,
        index: q.index,
        consumed: q.consumed,
        offset: q.offset,
        played: q.played,
        loops: q.loops,
        ..v
    }
}

// The voice with the queue of a stop: stopped, at fraction 0.
fn with_stopped(v: Voice, q: Queue) -> Voice
    ensures { result ≡ with Stopped v.flush q (fin false 0 (pos 0)) v }
{
    Voice {
        play: Play::Stopped,
        fraction: 0.0,
        ..with_queue(v, q)
    }
}
