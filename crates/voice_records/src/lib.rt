// One voice's record of an update, 0x170 bytes, and what it makes of the voice (mixer.rs `update_voices`).
#![tactic(auto)]

mod buffers;
mod numbers;

ghost use Rattle.std.specs.Prelude.{◌≡◌};
ghost use Rattle.voice_records.specs.Record.{record_used, record_new, new_voice, renewed, filled, recorded};

use crate::buffers::recorded_buffers;
use crate::numbers::{channel_ids, decoding_of, flush_of, splitter_of};
use fields::{byte_at, f32_at, u32_at, u64_at};
pub use numbers::{id_at, record_channels};
use voice::Voice;

// Whether the game uses the voice.
pub fn record_used(p: &[u8]) -> bool
    ensures { result ≡ record_used p.now }
{
    fields::flag_at(p, 0x09)
}

// Whether the game has just taken the voice.
pub fn record_new(p: &[u8]) -> bool
    ensures { result ≡ record_new p.now }
{
    fields::flag_at(p, 0x08)
}

// A voice that has played nothing.
pub fn new_voice() -> Voice
    ensures { result ≡ new_voice }
{
    Voice {
        fresh: true,
        ..Voice::default()
    }
}

// The voice that the record's fields are set in.
fn renew(v: Voice, new: bool) -> Voice
    ensures { result ≡ renewed new v }
{
    if new { new_voice() } else { v }
}

// The record's fields set in the voice.
fn fill(v: Voice, p: &[u8], revision: u32, channel_count: u32) -> Voice
    ensures { result ≡ filled revision channel_count p.now v }
{
    let format = byte_at(p, 0x0b) as u32;
    let ids = channel_ids(p, channel_count);
    let buffers = recorded_buffers(v.buffers, p, format);
    Voice {
        in_use: true,
        play: voice::set_play(v.play, byte_at(p, 0x0a)),
        format,
        sample_rate: u32_at(p, 0x0c),
        channels: record_channels(p),
        pitch: f32_at(p, 0x1c),
        volume: f32_at(p, 0x20),
        queued: u32_at(p, 0x3c),
        base_index: u32_at(p, 0x40) % 4,
        flush: flush_of(v.flush, p, revision),
        decoding: decoding_of(v.decoding, p, revision),
        mix_id: u32_at(p, 0x58),
        splitter_id: splitter_of(p, revision),
        channel_ids: ids,
        data_source: u64_at(p, 0x48),
        buffers,
        ..v
    }
}

// What the record makes of the voice.
pub fn update_voice(v: Voice, p: &[u8], revision: u32, channel_count: u32) -> Voice
    ensures { result ≡ recorded revision channel_count p.now v }
{
    fill(renew(v, record_new(p)), p, revision, channel_count)
}
