// The turn of a voice that is ready (mixer.rs `render_voice`), on the state's slices and the mix buffers.
// What moves the voice's position (`turn::plan_turn`) is handed no sample.
#![tactic(auto)]

ghost use Rattle.std.specs.Prelude.{◌≡◌, true, false, ℕ, ◌+◌, ◌*◌, ◌≤◌, length, take};
ghost use Rattle.rows.specs.Rows.{put};
ghost use Rattle.state.specs.State.{state_of};
ghost use Rattle.turn.specs.Render.{render_over};
ghost use Rattle.turn.specs.Turn.{needed_by};
ghost use Rattle.sound_rows.specs.SoundRow.{contexts_of, history_of};
ghost use Rattle.playing.specs.Playing.{played_sound};
ghost use Rattle.hearing.specs.Hearing.{sound_in, heard_out};
ghost use Rattle.sending.specs.Sending.{route_out};
ghost use Rattle.state_voices.specs.StateVoices.{SoundInside};
ghost use Rattle.voice_turn.specs.Played.{studio, material_of, destined, sent_buffers, sent_floats, played};
ghost use Rattle.voice_turn.specs.Asks.{Sounding, Sendable, Rendering};

use params::Params;
use turn::{Render, Turn};
use voice::Voice;

// The sound of a turn: its rows are stored, and what is heard stands in the first rows of out.
fn hear_turn(
    t: Turn,
    v: Voice,
    r: Render,
    ranges: &[u64],
    memory: &[u8],
    k: usize,
    contexts: &mut [u16],
    history: &mut [f32],
    src: &mut [f32],
    out: &mut [f32],
)
    requires fact_1 { Sounding t v (render_over r ranges.now) memory.now src.old out.old }
    requires fact_2 { SoundInside k contexts.old history.old }
    ensures contexts_after { contexts.new ≡ put contexts.old (k * 3) (contexts_of (played_sound (material_of (render_over r ranges.now) memory.now v (sound_in k contexts.old history.old)))) }
    ensures history_after { history.new ≡ put history.old (k * 18) (history_of (played_sound (material_of (render_over r ranges.now) memory.now v (sound_in k contexts.old history.old)))) }
    ensures out_after { take (v.channels * r.sample_count) out.new ≡ heard_out (material_of (render_over r ranges.now) memory.now v (sound_in k contexts.old history.old)) }
{
    let s = turn::source_of(v, r);
    hearing::hear(
        voice::queue_of(v),
        s,
        ranges,
        t.plan.table,
        memory,
        t.ratio,
        t.fraction,
        t.needed,
        r.sample_count,
        k,
        contexts,
        history,
        src,
        out,
    );
}

// The sends of a turn, where the voice has a destination, of the first rows of out. What out holds afterwards is free.
fn send_turn(
    p: Params,
    v: Voice,
    from: f32,
    to: f32,
    out: &mut [f32],
    words: &[u32],
    floats: &mut [f32],
    buffers: &mut [f32],
)
    requires { Sendable p v out.old words.now floats.old }
    ensures buffers_after { buffers.new ≡ sent_buffers (destined v) p v (route_out from to p.sample_count v.channels out.old) words.now floats.old buffers.old }
    ensures floats_after { floats.new ≡ sent_floats (destined v) p v (route_out from to p.sample_count v.channels out.old) words.now floats.old buffers.old }
{
    if voice::has_destination(v.mix_id, v.splitter_id) {
        sending::send(
            p,
            v.mix_id,
            v.splitter_id,
            v.channels,
            v.channel_ids,
            from,
            to,
            out,
            words,
            floats,
            buffers,
        );
    }
}

// The turn of a voice that is ready: planned, stored, heard and sent. Gives its rounds. `src` has room for its samples.
fn turn_in(
    p: Params,
    r: Render,
    ranges: &[u64],
    memory: &[u8],
    k: usize,
    v: Voice,
    words: &mut [u32],
    longs: &mut [u64],
    floats: &mut [f32],
    contexts: &mut [u16],
    history: &mut [f32],
    buffers: &mut [f32],
    src: &mut [f32],
    out: &mut [f32],
) -> u32
    requires fact_1 { Rendering p (render_over r ranges.now) memory.now k (state_of words.old longs.old floats.old contexts.old history.old) v out.old }
    requires fact_2 { 3 + needed_by v (render_over r ranges.now) ≤ length src.old }
    ensures { (n : ℕ) → studio (state_of words.new longs.new floats.new contexts.new history.new) buffers.new (n + result) ≡ played p (render_over r ranges.now) memory.now k v (studio (state_of words.old longs.old floats.old contexts.old history.old) buffers.old n) }
{
    let t = turn::plan_turn(v, r, ranges);
    state_voices::store_voice_at(k, t.voice, words, longs, floats);
    hear_turn(t, v, r, ranges, memory, k, contexts, history, src, out);
    send_turn(p, v, t.from, t.to, out, words, floats, buffers);
    t.plan.rounds
}

// The same in a row of its own, which has room for the samples of every turn.
fn turn_far(
    p: Params,
    r: Render,
    ranges: &[u64],
    memory: &[u8],
    k: usize,
    v: Voice,
    words: &mut [u32],
    longs: &mut [u64],
    floats: &mut [f32],
    contexts: &mut [u16],
    history: &mut [f32],
    buffers: &mut [f32],
    out: &mut [f32],
) -> u32
    requires { Rendering p (render_over r ranges.now) memory.now k (state_of words.old longs.old floats.old contexts.old history.old) v out.old }
    ensures { (n : ℕ) → studio (state_of words.new longs.new floats.new contexts.new history.new) buffers.new (n + result) ≡ played p (render_over r ranges.now) memory.now k v (studio (state_of words.old longs.old floats.old contexts.old history.old) buffers.old n) }
{
    let mut row = [0.0f32; 4100];
    turn_in(
        p, r, ranges, memory, k, v, words, longs, floats, contexts, history, buffers, &mut row, out,
    )
}

// Whether a row has room for so many samples behind three: row 0 by its places, and row 1 always.
fn enough(row: u32, places: usize, needed: usize) -> bool
    requires { needed ≤ 4097 }
    ensures { (result ≡ true → row ≡ 0 → 3 + needed ≤ places) × (result ≡ false → row ≡ 0) }
{
    row != 0 || 3 + needed <= places
}

// The same in the first row from `row` on that has room: row 0 is src, and row 1 one of its own.
// That it calls itself keeps that row out of its frame of the stack: the compiler takes no large frame into a function that calls itself.
pub fn render_ready(
    p: Params,
    r: Render,
    ranges: &[u64],
    memory: &[u8],
    k: usize,
    v: Voice,
    row: u32,
    words: &mut [u32],
    longs: &mut [u64],
    floats: &mut [f32],
    contexts: &mut [u16],
    history: &mut [f32],
    buffers: &mut [f32],
    src: &mut [f32],
    out: &mut [f32],
) -> u32
    requires { Rendering p (render_over r ranges.now) memory.now k (state_of words.old longs.old floats.old contexts.old history.old) v out.old }
    ensures { (n : ℕ) → studio (state_of words.new longs.new floats.new contexts.new history.new) buffers.new (n + result) ≡ played p (render_over r ranges.now) memory.now k v (studio (state_of words.old longs.old floats.old contexts.old history.old) buffers.old n) }
{
    if enough(row, src.len(), turn::samples_needed(v, r)) {
        if row == 0 {
            return turn_in(
                p, r, ranges, memory, k, v, words, longs, floats, contexts, history, buffers, src,
                out,
            );
        }
        return turn_far(
            p, r, ranges, memory, k, v, words, longs, floats, contexts, history, buffers, out,
        );
    }
    render_ready(
        p,
        r,
        ranges,
        memory,
        k,
        v,
        row + 1,
        words,
        longs,
        floats,
        contexts,
        history,
        buffers,
        src,
        out,
    )
}
