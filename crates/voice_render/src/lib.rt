// The turn of one voice in a render (mixer.rs `render_voice`), on the state's slices and the mix buffers.
#![tactic(auto)]

ghost use Rattle.std.specs.Prelude.{◌≡◌, ℕ, ◌+◌, ◌<◌};
ghost use Rattle.state.specs.State.{state_of};
ghost use Rattle.state_voices.specs.StateVoices.{Playable};
ghost use Rattle.turn.specs.Render.{render_over};
ghost use Rattle.voice_turn.specs.Played.{studio};
ghost use Rattle.voice_turn.specs.Asks.{Renderable, Room};
ghost use Rattle.voice_render.specs.RenderVoice.{render_voice};

use params::Params;
use turn::Render;

// Voice k. Gives the rounds of its fetch; what src and out hold afterwards is free.
pub fn render_voice(
    p: Params,
    r: Render,
    ranges: &[u64],
    memory: &[u8],
    k: usize,
    words: &mut [u32],
    longs: &mut [u64],
    floats: &mut [f32],
    contexts: &mut [u16],
    history: &mut [f32],
    buffers: &mut [f32],
    src: &mut [f32],
    out: &mut [f32],
) -> u32
    requires fact_1 { Renderable p (render_over r ranges.now) memory.now (state_of words.old longs.old floats.old contexts.old history.old) }
    requires fact_2 { k < p.voices }
    requires fact_3 { Playable p k (state_of words.old longs.old floats.old contexts.old history.old) }
    requires fact_4 { Room p out.old }
    ensures { (n : ℕ) → studio (state_of words.new longs.new floats.new contexts.new history.new) buffers.new (n + result) ≡ render_voice p (render_over r ranges.now) memory.now k (studio (state_of words.old longs.old floats.old contexts.old history.old) buffers.old n) }
{
    if state_voices::idle(k, words) {
        return 0;
    }
    let b = state_voices::begin_voice(p, k, words, longs, floats, contexts, history);
    if b.ready {
        return voice_turn::render_ready(
            p, r, ranges, memory, k, b.voice, 0, words, longs, floats, contexts, history, buffers,
            src, out,
        );
    }
    0
}
