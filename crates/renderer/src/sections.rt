// A song section in one call (document 02, L6).
ghost use Rattle.std.specs.Prelude.{◌≡◌};
ghost use Rattle.ranges.specs.Ranges.{ranges_of};
ghost use Rattle.state.specs.State.{state_of};
ghost use Rattle.calls.specs.Sections.{section_call};
ghost use Rattle.renderer.specs.Answers.{section_seen};

use crate::answers::SectionError;
use params::Params;

// `count` renders one after the other, each with samples from the same memory, as `render` takes it. The frames of each go behind those of
// the one before it, the first to the front of `frames`. Gives the rounds that the fetches of all of them took.
pub fn render_section(
    words: &mut [u32],
    longs: &mut [u64],
    floats: &mut [f32],
    contexts: &mut [u16],
    history: &mut [f32],
    count: u32,
    ranges: &[u64],
    memory: &[u8],
    frames: &mut [f32],
) -> Result<u32, SectionError>
    ensures { section_seen result
        (state_of words.new longs.new floats.new contexts.new history.new)
        frames.new
        ≡ section_call
        (state_of words.old longs.old floats.old contexts.old history.old)
        count (ranges_of ranges.now) memory.now frames.old }
{
    if !whole::whole(words, longs, floats, contexts, history) {
        return Err(SectionError::NotWhole);
    }
    if !ranges::laid(ranges, memory.len() as u64) {
        return Err(SectionError::Ranges);
    }
    if !ranges::near(ranges) {
        return Err(SectionError::FarMemory);
    }
    if !renders::renders_allowed(count) {
        return Err(SectionError::Count);
    }
    let p = Params::load(words);
    if frames.len() < renders::floats_for(p, count) {
        return Err(SectionError::ShortFrames);
    }
    let rounds = renders::render_all(
        p, count, ranges, memory, words, longs, floats, contexts, history, frames,
    );
    Ok(rounds)
}
