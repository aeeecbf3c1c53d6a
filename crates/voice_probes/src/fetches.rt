// A fetch: the position's part by a voice's rows, and the sound of a channel.
use crate::{VoiceContext, load};
use plan::Source;
use voice::Voice;

// What a fetch takes from a voice.
fn source_of(v: Voice, buffers_v2: bool) -> Source {
    Source {
        format: v.format,
        channels: v.channels,
        decoding: v.decoding,
        data_source: v.data_source,
        buffers_v2,
    }
}

// A voice after a fetch's plan, and the rounds; none where a fetch requires more of it.
#[derive(Clone, Copy)]
struct Moved {
    voice: Voice,
    rounds: Option<u32>,
}

fn plan_voice(v: Voice, s: Source, ranges: &[u64], count: u32) -> Moved {
    if count > 65536 || v.index > 3 || s.channels == 0 || s.channels > 6 {
        return Moved {
            voice: v,
            rounds: None,
        };
    }
    let p = plan::plan_fetch(voice::queue_of(v), s, ranges, count);
    Moved {
        voice: voice::with_queue(v, p.queue),
        rounds: Some(p.rounds),
    }
}

// The plan of a fetch, its queue stored. The rounds, or 255 where the rows are no voice's.
#[unsafe(no_mangle)]
pub extern "C" fn probe_plan(
    words: &mut [u32],
    longs: &mut [u64],
    floats: &mut [f32],
    base: u64,
    size: u64,
    count: u32,
    buffers_v2: u32,
) -> u32 {
    let Some(v) = load(words, longs, floats) else {
        return 255;
    };
    let m = plan_voice(v, source_of(v, buffers_v2 != 0), &[base, 0, size], count);
    voice_rows::store_voice(m.voice, words, 0, longs, 0, floats, 0);
    m.rounds.unwrap_or(255)
}

// The sound of channel c of a voice's fetch, and the ADPCM context that is left.
#[unsafe(no_mangle)]
pub extern "C" fn probe_fetch_row(
    words: &[u32],
    longs: &[u64],
    floats: &[f32],
    contexts: &[u16],
    history: &[f32],
    base: u64,
    memory: &[u8],
    buffers_v2: u32,
    c: u32,
    out: &mut [f32],
) -> VoiceContext {
    let Some(v) = load(words, longs, floats) else {
        return nothing();
    };
    if contexts.len() < 3 || history.len() < 18 {
        return nothing();
    }
    let sound = sound_rows::load_sound(contexts, history);
    let s = source_of(v, buffers_v2 != 0);
    let ranges = [base, 0, memory.len() as u64];
    let first = three_of(sound.history.samples, c);
    let q = voice::queue_of(v);
    let x = fetch_once::fetch_row(q, s, &ranges, memory, sound.adpcm, first, c, out);
    VoiceContext {
        pred_scale: x.pred_scale,
        history0: x.history0,
        history1: x.history1,
    }
}

fn nothing() -> VoiceContext {
    VoiceContext {
        pred_scale: 0,
        history0: 0,
        history1: 0,
    }
}

// The history of channel c; zeros for one that there is none of.
fn three_of(h: [f32; 18], c: u32) -> [f32; 3] {
    if c > 5 {
        return [0.0; 3];
    }
    let at = (c * 3) as usize;
    [h[at], h[at + 1], h[at + 2]]
}
