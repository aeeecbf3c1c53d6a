// Exports of a voice by its rows for the driver compare/voice.rs, which holds flush, prepare and fetch to the oracle. No part of the
// interface for titles. Where the rows are not a voice's, the answer says so and nothing changes.
#![tactic(auto)]

mod fetches;

ghost use Rattle.std.specs.Prelude.{◌≤◌, length, IfSome};

use voice::{Prepared, Voice, WaveBuffer};

// The lengths of a voice's rows.
pub const VOICE_WORDS: usize = 58;

pub const VOICE_LONGS: usize = 14;

pub const VOICE_FLOATS: usize = 4;

#[repr(C)]
#[derive(Clone, Copy)]
pub struct VoiceContext {
    pub pred_scale: u16,
    pub history0: i16,
    pub history1: i16,
}

// The voice of these rows; none where they are shorter than a voice's.
pub(crate) fn load(words: &[u32], longs: &[u64], floats: &[f32]) -> Option<Voice>
    ensures { IfSome result (λ v. (58 ≤ length words.now) × (14 ≤ length longs.now) × (4 ≤ length floats.now)) }
{
    if words.len() < VOICE_WORDS || longs.len() < VOICE_LONGS || floats.len() < VOICE_FLOATS {
        return None;
    }
    Some(voice_rows::load_voice(words, longs, floats))
}

// The position's part of a prepare, the voice stored; none where the rows are no voice's.
fn prepare_rows(words: &mut [u32], longs: &mut [u64], floats: &mut [f32]) -> Option<Prepared> {
    let v = load(words, longs, floats)?;
    if v.base_index > 3 || v.index > 3 {
        return None;
    }
    let p = voice::prepare(v);
    voice_rows::store_voice(p.voice, words, 0, longs, 0, floats, 0);
    Some(p)
}

fn reset_rows(contexts: &mut [u16], history: &mut [f32]) {
    if 3 <= contexts.len() && 18 <= history.len() {
        sound_rows::store_sound(voice::silent(), contexts, 0, history, 0);
    }
}

// Whether the voice is ready, or 2 for no voice. The sound of a voice that has stopped is reset.
#[unsafe(no_mangle)]
pub extern "C" fn probe_prepare(
    words: &mut [u32],
    longs: &mut [u64],
    floats: &mut [f32],
    contexts: &mut [u16],
    history: &mut [f32],
) -> u32 {
    let Some(p) = prepare_rows(words, longs, floats) else {
        return 2;
    };
    if p.reset {
        reset_rows(contexts, history);
        return 0;
    }
    p.ready as u32
}

// The flush walk of the voice in these rows, of so many turns from its base slot on, its queue stored. The turns that it took, or 5 where
// the rows are no voice's.
#[unsafe(no_mangle)]
pub extern "C" fn probe_flush(
    words: &mut [u32],
    longs: &mut [u64],
    floats: &mut [f32],
    count: u32,
) -> u32 {
    let Some(v) = load(words, longs, floats) else {
        return 5;
    };
    if v.base_index > 3 {
        return 5;
    }
    let f = voice::flush(voice::queue_of(v), v.base_index, count);
    voice_rows::store_voice(voice::with_queue(v, f.queue), words, 0, longs, 0, floats, 0);
    f.turns
}

#[unsafe(no_mangle)]
pub extern "C" fn probe_offsets_valid(record: &[u8], format: u32) -> u32 {
    WaveBuffer::parse(record).offsets_valid(format) as u32
}
