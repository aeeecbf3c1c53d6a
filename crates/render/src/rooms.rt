// The room of a render, by need. Each size is made in a function of its own, so that a small desk takes little of the stack.
ghost use Rattle.std.specs.Prelude.{◌≡◌, ◌*◌, ◌<◌, ◌≤◌, true, false, length};
ghost use Rattle.state.specs.State.{state_of};
ghost use Rattle.ranges.specs.Ranges.{ranges_of};
ghost use Rattle.render_turns.specs.Turns.{Playing};
ghost use Rattle.render.specs.Render.{rendered, rendered_by, render_of};
ghost use Rattle.render.specs.Rooms.{room_floats, room_samples, Holds};

use crate::render_lent;
use params::Params;

// A render in a room of its own: mix buffers, a row to play from and rows of each of six channels, of these sizes.
fn render_in_room<const BUFFERS: usize, const SRC: usize, const OUT: usize>(
    p: Params,
    ranges: &[u64],
    memory: &[u8],
    words: &mut [u32],
    longs: &mut [u64],
    floats: &mut [f32],
    contexts: &mut [u16],
    history: &mut [f32],
    frames: &mut [f32],
) -> u32
    requires playing { Playing p (render_of p (ranges_of ranges.now)) memory.now 0
        (state_of words.old longs.old floats.old contexts.old history.old) }
    requires frames_room { 2 * p.sample_count ≤ length frames.old }
    requires room { Holds p BUFFERS SRC OUT }
    ensures { rendered
        (state_of words.new longs.new floats.new contexts.new history.new)
        result frames.new
        ≡ rendered_by p (ranges_of ranges.now) memory.now
        (state_of words.old longs.old floats.old contexts.old history.old)
        frames.old }
{
    let mut buffers = [0.0f32; BUFFERS];
    let mut src = [0.0f32; SRC];
    let mut out = [0.0f32; OUT];
    render_lent(
        p,
        ranges,
        memory,
        words,
        longs,
        floats,
        contexts,
        history,
        &mut buffers,
        &mut src,
        &mut out,
        frames,
    )
}

// The floats of mix buffers that room k has.
#[tactic(auto, using(crate::proofs::Fitting::last_floats), unfolding(crate::specs::Rooms::room_floats))]
fn room_floats(k: u32) -> usize
    ensures { result ≡ room_floats k }
{
    match k {
        0 => 256,
        1 => 2560,
        2 => 6144,
        _ => 24576,
    }
}

// The samples that its rows have.
#[tactic(auto, using(crate::proofs::Fitting::later_samples), unfolding(crate::specs::Rooms::room_samples))]
fn room_samples(k: u32) -> u32
    ensures { result ≡ room_samples k }
{
    if k == 0 { 16 } else { 256 }
}

// Whether room k is enough.
fn enough(k: u32, floats: usize, samples: u32) -> bool
    requires { (floats ≤ 24576) × (samples ≤ 256) }
    ensures { (result ≡ true → (floats ≤ room_floats k) × (samples ≤ room_samples k)) × (result ≡ false → k < 3) }
{
    floats <= room_floats(k) && samples <= room_samples(k)
}

// A render in the first room from k on that is enough; room 3 always is. That it calls itself keeps the rooms out of its frame of the
// stack: the compiler takes no large frame into a function that calls itself.
pub fn render_from(
    k: u32,
    p: Params,
    ranges: &[u64],
    memory: &[u8],
    words: &mut [u32],
    longs: &mut [u64],
    floats: &mut [f32],
    contexts: &mut [u16],
    history: &mut [f32],
    frames: &mut [f32],
) -> u32
    requires { (Playing p (render_of p (ranges_of ranges.now)) memory.now 0
        (state_of words.old longs.old floats.old contexts.old history.old)) × (2 * p.sample_count ≤ length frames.old) }
    ensures { rendered
        (state_of words.new longs.new floats.new contexts.new history.new)
        result frames.new
        ≡ rendered_by p (ranges_of ranges.now) memory.now
        (state_of words.old longs.old floats.old contexts.old history.old)
        frames.old }
{
    let total = p.mix_buffers as usize * p.sample_count as usize;
    if enough(k, total, p.sample_count) {
        return match k {
            0 => render_in_room::<256, 64, 96>(
                p, ranges, memory, words, longs, floats, contexts, history, frames,
            ),
            1 => render_in_room::<2560, 516, 1536>(
                p, ranges, memory, words, longs, floats, contexts, history, frames,
            ),
            2 => render_in_room::<6144, 516, 1536>(
                p, ranges, memory, words, longs, floats, contexts, history, frames,
            ),
            _ => render_in_room::<24576, 516, 1536>(
                p, ranges, memory, words, longs, floats, contexts, history, frames,
            ),
        };
    }
    render_from(
        k + 1,
        p,
        ranges,
        memory,
        words,
        longs,
        floats,
        contexts,
        history,
        frames,
    )
}
