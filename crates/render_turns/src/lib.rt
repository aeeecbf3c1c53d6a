// The voices of a render, one after the other.
#![tactic(auto)]

ghost use Rattle.std.specs.Prelude.{◌≡◌, ◌≤◌};
ghost use Rattle.state.specs.State.{state_of};
ghost use Rattle.turn.specs.Render.{render_over};
ghost use Rattle.voice_turn.specs.Played.{studio};
ghost use Rattle.voice_turn.specs.Asks.{Room};
ghost use Rattle.render_turns.specs.Turns.{Playing, voices_rendered};

use params::Params;
use turn::Render;

// The rounds that all their fetches took. `src` is room for a row of samples to play from, `out` for a row of each of six channels.
pub fn render_voices(
    p: Params,
    r: Render,
    ranges: &[u64],
    memory: &[u8],
    words: &mut [u32],
    longs: &mut [u64],
    floats: &mut [f32],
    contexts: &mut [u16],
    history: &mut [f32],
    buffers: &mut [f32],
    src: &mut [f32],
    out: &mut [f32],
) -> u32
    requires fact_1 { Playing p (render_over r ranges.now) memory.now 0
        (state_of words.old longs.old floats.old contexts.old history.old) }
    requires fact_2 { Room p out.old }
    ensures { studio
        (state_of words.new longs.new floats.new contexts.new history.new)
        buffers.new result
        ≡ voices_rendered p (render_over r ranges.now) memory.now p.voices (studio
        (state_of words.old longs.old floats.old contexts.old history.old)
        buffers.old 0) }
{
    let mut rounds = 0;
    for k in 0..p.voices as usize {
        let spent = voice_render::render_voice(
            p, r, ranges, memory, k, words, longs, floats, contexts, history, buffers, src, out,
        );
        rounds += spent;
    }
    rounds
}
