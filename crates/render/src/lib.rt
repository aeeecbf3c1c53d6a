// A render (mixer.rs `render`): every voice in turn, then the sub-mixes and the sink.
#![tactic(auto)]

mod rooms;

ghost use Rattle.std.specs.Prelude.{◌≡◌, ℕ, ◌+◌, ◌*◌, ◌%◌, ◌^◌, ◌≤◌, List, length, slice_index, slice_set};
ghost use Rattle.state.specs.State.{state_of};
ghost use Rattle.desk_render.specs.DeskRender.{Mixable};
ghost use Rattle.ranges.specs.Ranges.{ranges_of};
ghost use Rattle.turn.specs.Render.{render_over};
ghost use Rattle.render_turns.specs.Turns.{Playing};
ghost use Rattle.render.specs.Render.{rendered, rendered_by, render_of, frames_on};
ghost use Rattle.render.specs.Rooms.{Blank, Rows};

use params::Params;
use turn::Render;

// One render more has elapsed.
fn count_render(longs: &mut [u64])
    requires { 1 ≤ length longs.old }
    ensures { longs.new ≡ slice_set longs.old 0 ((slice_index longs.old 0 + 1) % 2 ^ 64) }
{
    longs[0] = std::num::wrapping_add_u64(longs[0], 1);
}

// The sub-mixes and the sink. `row` is room for a row of samples: one of a sub-mix, then one of silence.
fn finish(
    p: Params,
    words: &[u32],
    floats: &[f32],
    buffers: &mut [f32],
    row: &mut [f32],
    frames: &mut [f32],
)
    requires fact_1 { Mixable p words.now floats.now }
    requires fact_2 { length row.old ≡ p.sample_count }
    requires fact_3 { 2 * p.sample_count ≤ length frames.old }
    ensures { frames.new
        ≡ frames_on p words.now floats.now buffers.old frames.old }
{
    desk_render::render_mixes(p, words, floats, buffers, row);
    let n = p.sample_count as usize;
    sound::zeros(n, row);
    desk_render::write_sink(p, words, floats, buffers, row, frames);
}

// A render with room that is lent: mix buffers that are silent as far as it needs them, and rows. After the voices `src` has room for a row
// of the desk.
fn render_lent(
    p: Params,
    ranges: &[u64],
    memory: &[u8],
    words: &mut [u32],
    longs: &mut [u64],
    floats: &mut [f32],
    contexts: &mut [u16],
    history: &mut [f32],
    buffers: &mut [f32],
    src: &mut [f32],
    out: &mut [f32],
    frames: &mut [f32],
) -> u32
    requires fact_1 { Playing p (render_of p (ranges_of ranges.now)) memory.now 0
        (state_of words.old longs.old floats.old contexts.old history.old) }
    requires fact_2 { 2 * p.sample_count ≤ length frames.old }
    requires fact_3 { Blank p buffers.old }
    requires fact_4 { Rows p src.old out.old }
    ensures { rendered
        (state_of words.new longs.new floats.new contexts.new history.new)
        result frames.new
        ≡ rendered_by p (ranges_of ranges.now) memory.now
        (state_of words.old longs.old floats.old contexts.old history.old)
        frames.old }
{
    let n = p.sample_count as usize;
    let total = p.mix_buffers as usize * n;
    let r = render_of(p);
    count_render(longs);
    let rounds = render_turns::render_voices(
        p,
        r,
        ranges,
        memory,
        words,
        longs,
        floats,
        contexts,
        history,
        &mut buffers[..total],
        src,
        out,
    );
    finish(
        p,
        words,
        floats,
        &mut buffers[..total],
        &mut src[..n],
        frames,
    );
    rounds
}

// A render: the rounds that its fetches took. The frames go to the front of a slice that has room for them.
pub fn render(
    p: Params,
    ranges: &[u64],
    memory: &[u8],
    words: &mut [u32],
    longs: &mut [u64],
    floats: &mut [f32],
    contexts: &mut [u16],
    history: &mut [f32],
    frames: &mut [f32],
) -> u32
    requires fact_1 { Playing p (render_of p (ranges_of ranges.now)) memory.now 0
        (state_of words.old longs.old floats.old contexts.old history.old) }
    requires fact_2 { 2 * p.sample_count ≤ length frames.old }
    ensures { rendered
        (state_of words.new longs.new floats.new contexts.new history.new)
        result frames.new
        ≡ rendered_by p (ranges_of ranges.now) memory.now
        (state_of words.old longs.old floats.old contexts.old history.old)
        frames.old }
{
    rooms::render_from(
        0, p, ranges, memory, words, longs, floats, contexts, history, frames,
    )
}

// What a render gives to each voice.
fn render_of(p: Params) -> Render
    ensures { (numbers : List ℕ) → render_over result numbers ≡ render_of p (ranges_of numbers) }
{
    Render {
        sample_count: p.sample_count,
        sample_rate: p.sample_rate,
        buffers_v2: p.revision_number() >= 8,
    }
}
