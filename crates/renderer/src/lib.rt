// The calls that a title may make on a renderer, which is five lent slices. Each asks its questions (docs/QUESTIONS.md) in their sequence; the first "no" is the
// answer, and then nothing that is lent changes.
#![tactic(auto)]

mod answers;
mod counts;
mod sections;

ghost use Rattle.std.specs.Prelude.{◌≡◌};
ghost use Rattle.ranges.specs.Ranges.{ranges_of};
ghost use Rattle.state.specs.State.{state_of};
ghost use Rattle.calls.specs.Calls.{lengths_call, reply_length_call, open_call, update_call, render_call, order_call};
ghost use Rattle.renderer.specs.Answers.{lengths_seen, reply_length_seen, open_seen, update_seen, render_seen, order_seen};

pub use answers::{
    Lengths, LengthsError, OpenError, OrderError, RenderError, SectionError, UpdateError,
};
use counts::allowed;
use desk_order::MixOrder;
use params::Params;
pub use sections::render_section;
use slices::Slices;

// How long the slices of a renderer with these parameters must be.
pub fn lengths(p: Params) -> Result<Lengths, LengthsError>
    ensures { lengths_seen result ≡ lengths_call p }
{
    allowed(p)?;
    let at = state::places_of(p);
    Ok(Lengths {
        words: at.words,
        longs: at.longs,
        floats: at.floats,
        contexts: at.contexts,
        history: at.history,
    })
}

// How long the reply to an update is, where the title expects so many bytes.
pub fn reply_length(p: Params, expected: u32) -> Result<usize, LengthsError>
    ensures { reply_length_seen result ≡ reply_length_call p expected }
{
    allowed(p)?;
    Ok(p.reply_length(expected))
}

// Makes the state of a renderer, whatever the slices held before.
pub fn open(
    p: Params,
    words: &mut [u32],
    longs: &mut [u64],
    floats: &mut [f32],
    contexts: &mut [u16],
    history: &mut [f32],
) -> Result<(), OpenError>
    ensures { open_seen result (state_of words.new longs.new floats.new contexts.new history.new)
        ≡ open_call p (state_of words.old longs.old floats.old contexts.old history.old) }
{
    allowed(p)?;
    let at = state::places_of(p);
    if !whole::lengths_right(
        at,
        words.len(),
        longs.len(),
        floats.len(),
        contexts.len(),
        history.len(),
    ) {
        return Err(OpenError::Lengths);
    }
    let mut s = Slices {
        words,
        longs,
        floats,
        contexts,
        history,
    };
    opened::open_state(p, &mut s);
    Ok(())
}

// A title's update: `expected` is the size of reply that it expects, `input` its sections. The reply goes to the front of `reply`, and its
// length is given.
pub fn update(
    words: &mut [u32],
    longs: &mut [u64],
    floats: &mut [f32],
    contexts: &mut [u16],
    history: &mut [f32],
    expected: u32,
    input: &[u8],
    reply: &mut [u8],
) -> Result<usize, UpdateError>
    ensures { update_seen result (state_of words.new longs.new floats.new contexts.new history.new) reply.new
        ≡ update_call (state_of words.old longs.old floats.old contexts.old history.old) expected input.now reply.old }
{
    if !whole::whole(words, longs, floats, contexts, history) {
        return Err(UpdateError::NotWhole);
    }
    let p = Params::load(words);
    let size = p.reply_length(expected);
    if reply.len() < size {
        return Err(UpdateError::ShortReply);
    }
    let mut s = Slices {
        words,
        longs,
        floats,
        contexts,
        history,
    };
    updates::update(p, expected, input, &mut s, reply);
    Ok(size)
}

// A render: samples are read from `memory`, whose parts stand at the addresses that `ranges` says: three numbers a range, its base, where
// its part starts in `memory`, and its length. The frames, left and right by turns, go to the front of `frames`.
// Gives the rounds that the fetches took, of all voices.
pub fn render(
    words: &mut [u32],
    longs: &mut [u64],
    floats: &mut [f32],
    contexts: &mut [u16],
    history: &mut [f32],
    ranges: &[u64],
    memory: &[u8],
    frames: &mut [f32],
) -> Result<u32, RenderError>
    ensures { render_seen result (state_of words.new longs.new floats.new contexts.new history.new) frames.new
        ≡ render_call (state_of words.old longs.old floats.old contexts.old history.old)
        (ranges_of ranges.now) memory.now frames.old }
{
    if !whole::whole(words, longs, floats, contexts, history) {
        return Err(RenderError::NotWhole);
    }
    if !ranges::laid(ranges, memory.len() as u64) {
        return Err(RenderError::Ranges);
    }
    if !ranges::near(ranges) {
        return Err(RenderError::FarMemory);
    }
    let p = Params::load(words);
    if frames.len() < 2 * p.sample_count as usize {
        return Err(RenderError::ShortFrames);
    }
    let rounds = render::render(
        p, ranges, memory, words, longs, floats, contexts, history, frames,
    );
    Ok(rounds)
}

// The sub-mixes that a render of this state runs, in their sequence.
pub fn mix_order(
    words: &[u32],
    longs: &[u64],
    floats: &[f32],
    contexts: &[u16],
    history: &[f32],
) -> Result<MixOrder, OrderError>
    ensures { order_seen result ≡ order_call (state_of words.now longs.now floats.now contexts.now history.now) }
{
    if !whole::whole(words, longs, floats, contexts, history) {
        return Err(OrderError::NotWhole);
    }
    Ok(desk_render::mix_order(Params::load(words), words))
}
