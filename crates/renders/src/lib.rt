// A song section (document 02, L6): so many renders one after the other.
#![tactic(auto)]

ghost use Rattle.std.specs.Prelude.{◌≡◌, ◌*◌, ◌≤◌, leb};
ghost use Rattle.ranges.specs.Ranges.{ranges_of};
ghost use Rattle.state.specs.State.{state_of};
ghost use Rattle.calls.specs.Calls.{render_left};
ghost use Rattle.calls.specs.Sections.{most_renders, section_done};
ghost use Rattle.renders.specs.Sectionable.{Sectionable};

use params::Params;

// As many renders as one section may have.
const MOST_RENDERS: u32 = 1024;

// Question 14: may a section have so many renders?
pub fn renders_allowed(count: u32) -> bool
    ensures { result ≡ leb count most_renders }
{
    count <= MOST_RENDERS
}

// The floats that the frames of so many renders take, left and right.
pub fn floats_for(p: Params, count: u32) -> usize
    requires fact_1 { p.sample_count ≤ 256 }
    requires fact_2 { count ≤ most_renders }
    ensures { result ≡ count * (2 * p.sample_count) }
{
    count as usize * (2 * p.sample_count as usize)
}

// The rounds of all of them. The frames of each go behind those of the one before it.
pub fn render_all(
    p: Params,
    count: u32,
    ranges: &[u64],
    memory: &[u8],
    words: &mut [u32],
    longs: &mut [u64],
    floats: &mut [f32],
    contexts: &mut [u16],
    history: &mut [f32],
    frames: &mut [f32],
) -> u32
    requires fact_1 { Sectionable p count (ranges_of ranges.now) memory.now
        (state_of words.old longs.old floats.old contexts.old history.old) frames.old }
    requires fact_2 { count ≤ most_renders }
    ensures { render_left 0 result
        (state_of words.new longs.new floats.new contexts.new history.new)
        frames.new
        ≡ section_done count
        (state_of words.old longs.old floats.old contexts.old history.old)
        (ranges_of ranges.now) memory.now frames.old }
{
    let wide = 2 * p.sample_count as usize;
    let mut rounds = 0;
    let mut at = 0;
    for _ in 0..count {
        let spent = render::render(
            p,
            ranges,
            memory,
            words,
            longs,
            floats,
            contexts,
            history,
            &mut frames[at..],
        );
        rounds += spent;
        at += wide;
    }
    rounds
}
