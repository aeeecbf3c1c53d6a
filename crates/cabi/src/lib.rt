// The calls for C, Rust and other languages: numbers, lent slices and structs of numbers. Each answer has a number of docs/QUESTIONS.md, 0 for success.
// include/jeqlluna.h declares them.
#![tactic(auto)]

mod answers;
mod decode;
mod dsp;
mod encode;
mod merge;

ghost use Rattle.std.specs.Prelude.{◌≡◌};
ghost use Rattle.ranges.specs.Ranges.{ranges_of};
ghost use Rattle.params.specs.Params.{parse_of};
ghost use Rattle.state.specs.State.{state_of};
ghost use Rattle.calls.specs.Calls.{lengths_call, reply_length_call, open_left, open_call, update_left, update_call, render_left, render_call, order_call};
ghost use Rattle.calls.specs.Sections.{section_call};
ghost use Rattle.cabi.specs.Answers.{lengths_left, length_in, order_in};

pub use answers::{JeqllunaLength, JeqllunaLengths, JeqllunaOrder, JeqllunaRender, JeqllunaUpdate};
pub use decode::{JeqllunaContext, JeqllunaDecoded, jeqlluna_decode_adpcm};
pub use dsp::{
    JeqllunaDsp, JeqllunaDspRead, JeqllunaDspWritten, jeqlluna_read_dsp, jeqlluna_write_dsp,
};
pub use encode::{JeqllunaEncoded, jeqlluna_encode_adpcm};
pub use merge::{JeqllunaMerged, jeqlluna_merge};
use params::Params;

// How long the five slices of a renderer with these parameters must be.
#[unsafe(no_mangle)]
pub extern "C" fn jeqlluna_lengths(parameters: &[u8]) -> JeqllunaLengths
    ensures { lengths_left result ≡ lengths_call (parse_of parameters.now) }
{
    answers::lengths_told(renderer::lengths(Params::parse(parameters)))
}

// How long the reply to an update is, where the title expects so many bytes.
#[unsafe(no_mangle)]
pub extern "C" fn jeqlluna_reply_length(parameters: &[u8], expected: u32) -> JeqllunaLength
    ensures { length_in result ≡ reply_length_call (parse_of parameters.now) expected }
{
    answers::reply_length_told(renderer::reply_length(Params::parse(parameters), expected))
}

// Makes the state of a renderer, whatever the slices held before.
#[unsafe(no_mangle)]
pub extern "C" fn jeqlluna_open(
    parameters: &[u8],
    words: &mut [u32],
    longs: &mut [u64],
    floats: &mut [f32],
    contexts: &mut [u16],
    history: &mut [f32],
) -> u32
    ensures { open_left result (state_of words.new longs.new floats.new contexts.new history.new)
        ≡ open_call (parse_of parameters.now) (state_of words.old longs.old floats.old contexts.old history.old) }
{
    answers::open_told(renderer::open(
        Params::parse(parameters),
        words,
        longs,
        floats,
        contexts,
        history,
    ))
}

// An update; the reply goes to the front of its slice.
#[unsafe(no_mangle)]
pub extern "C" fn jeqlluna_update(
    words: &mut [u32],
    longs: &mut [u64],
    floats: &mut [f32],
    contexts: &mut [u16],
    history: &mut [f32],
    expected: u32,
    input: &[u8],
    reply: &mut [u8],
) -> JeqllunaUpdate
    ensures { update_left result.number result.size (state_of words.new longs.new floats.new contexts.new history.new) reply.new
        ≡ update_call (state_of words.old longs.old floats.old contexts.old history.old) expected input.now reply.old }
{
    answers::update_told(renderer::update(
        words, longs, floats, contexts, history, expected, input, reply,
    ))
}

// A render; the frames go to the front of their slice.
#[unsafe(no_mangle)]
pub extern "C" fn jeqlluna_render(
    words: &mut [u32],
    longs: &mut [u64],
    floats: &mut [f32],
    contexts: &mut [u16],
    history: &mut [f32],
    ranges: &[u64],
    memory: &[u8],
    frames: &mut [f32],
) -> JeqllunaRender
    ensures { render_left result.number result.rounds (state_of words.new longs.new floats.new contexts.new history.new) frames.new
        ≡ render_call (state_of words.old longs.old floats.old contexts.old history.old)
        (ranges_of ranges.now) memory.now frames.old }
{
    answers::render_told(renderer::render(
        words, longs, floats, contexts, history, ranges, memory, frames,
    ))
}

// A song section: `count` renders one after the other, whose frames stand one behind the other in their slice.
#[unsafe(no_mangle)]
pub extern "C" fn jeqlluna_render_section(
    words: &mut [u32],
    longs: &mut [u64],
    floats: &mut [f32],
    contexts: &mut [u16],
    history: &mut [f32],
    count: u32,
    ranges: &[u64],
    memory: &[u8],
    frames: &mut [f32],
) -> JeqllunaRender
    ensures { render_left result.number result.rounds
        (state_of words.new longs.new floats.new contexts.new history.new)
        frames.new
        ≡ section_call
        (state_of words.old longs.old floats.old contexts.old history.old)
        count (ranges_of ranges.now) memory.now frames.old }
{
    answers::section_told(renderer::render_section(
        words, longs, floats, contexts, history, count, ranges, memory, frames,
    ))
}

// The sub-mixes that a render of this state runs, in their sequence.
#[unsafe(no_mangle)]
pub extern "C" fn jeqlluna_mix_order(
    words: &[u32],
    longs: &[u64],
    floats: &[f32],
    contexts: &[u16],
    history: &[f32],
) -> JeqllunaOrder
    ensures { order_in result ≡ order_call (state_of words.now longs.now floats.now contexts.now history.now) }
{
    answers::order_told(renderer::mix_order(words, longs, floats, contexts, history))
}
