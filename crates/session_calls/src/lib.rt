// A call of a session: run on a renderer, and its line written at the front of a lent slice.
#![tactic(auto)]

ghost use Rattle.std.specs.Prelude.{◌≡◌, [], ◌≤◌, length, take};
ghost use Rattle.state.specs.State.{state_of};
ghost use Rattle.renderer.specs.Answers.{update_number, update_size, render_number};
ghost use Rattle.session.specs.Text.{text, append};
ghost use Rattle.session.specs.Lines.{frames_line, reply_line, refused_line};
ghost use Rattle.session_calls.specs.Steps.{held, line_of, written, written_on, render_step, update_step, call_step};

use renderer::{RenderError, UpdateError};
use session::Call;

// Where sample memory stands: it is one range.
const BASE: u64 = 0x10000;

// A refusal's number, or 0; and the length of the call's line.
#[derive(Clone, Copy)]
pub struct Line {
    pub number: u32,
    pub size: usize,
}

// Writes a refusal's line.
fn refused(number: u32, out: &mut [u8]) -> Line
    requires { 65536 ≤ length out.old }
    ensures number_value { (result.number ≡ number) × (text out.new result.size ≡ append (text out.old 0) (refused_line number)) }
    ensures size_in_bounds { result.size ≤ length out.new }
{
    let size = session::refused_line(number, out);
    Line { number, size }
}

// Writes the frames' line or the refusal's, by what the render answered.
fn render_line(answer: Result<u32, RenderError>, frames: &[f32], out: &mut [u8]) -> Line
    requires frames_len_bound { length frames.now ≤ 128 }
    requires in_bounds { 65536 ≤ length out.old }
    ensures number_value { (result.number ≡ render_number answer) × (text out.new result.size
        ≡ append (text out.old 0) (line_of (render_number answer) (frames_line frames.now))) }
    ensures size_in_bounds { result.size ≤ length out.new }
{
    match answer {
        Ok(_) => {
            let size = session::frames_line(frames, out);
            Line { number: 0, size }
        }
        Err(e) => refused(e.number(), out),
    }
}

// Renders, and writes the call's line.
fn run_render(
    memory: &[u8],
    words: &mut [u32],
    longs: &mut [u64],
    floats: &mut [f32],
    contexts: &mut [u16],
    history: &mut [f32],
    frames: &mut [f32],
    out: &mut [u8],
) -> Line
    requires frames_len_bound { length frames.old ≤ 128 }
    requires in_bounds { 65536 ≤ length out.old }
    ensures size_after { written result.number
        (held (state_of words.new longs.new floats.new contexts.new history.new)
        frames.new [])
        (text out.new result.size)
        ≡ written_on out.old (render_step
        (held (state_of words.old longs.old floats.old contexts.old history.old)
        frames.old [])
        memory.now) }
    ensures size_in_bounds { result.size ≤ length out.new }
{
    let ranges = [BASE, 0, memory.len() as u64];
    let answer = renderer::render(
        words, longs, floats, contexts, history, &ranges, memory, frames,
    );
    render_line(answer, frames, out)
}

// Writes the reply's line or the refusal's, by what the update answered. The reply is at the front of its slice.
fn update_line(answer: Result<usize, UpdateError>, reply: &[u8], out: &mut [u8]) -> Line
    requires answer_in_bounds { (update_size answer ≤ length reply.now) × (length reply.now ≤ 16384) }
    requires in_bounds { 65536 ≤ length out.old }
    ensures number_value { (result.number ≡ update_number answer) × (text out.new result.size
        ≡ append (text out.old 0) (line_of (update_number answer) (reply_line (take (update_size answer) reply.now)))) }
    ensures size_in_bounds { result.size ≤ length out.new }
{
    match answer {
        Ok(n) => {
            let size = session::reply_line(&reply[..n], out);
            Line { number: 0, size }
        }
        Err(e) => refused(e.number(), out),
    }
}

// Updates, and writes the call's line.
fn run_update(
    expected: u32,
    input: &[u8],
    words: &mut [u32],
    longs: &mut [u64],
    floats: &mut [f32],
    contexts: &mut [u16],
    history: &mut [f32],
    reply: &mut [u8],
    out: &mut [u8],
) -> Line
    requires reply_len_bound { length reply.old ≤ 16384 }
    requires in_bounds { 65536 ≤ length out.old }
    ensures size_after { written result.number
        (held (state_of words.new longs.new floats.new contexts.new history.new)
        [] reply.new)
        (text out.new result.size)
        ≡ written_on out.old (update_step
        (held (state_of words.old longs.old floats.old contexts.old history.old)
        [] reply.old)
        expected input.now) }
    ensures size_in_bounds { result.size ≤ length out.new }
{
    let answer = renderer::update(
        words, longs, floats, contexts, history, expected, input, reply,
    );
    update_line(answer, reply, out)
}

// The call at the front of d, if one is there. Its input, if it has one, is behind nine bytes.
pub fn run_call(
    call: Option<Call>,
    d: &[u8],
    memory: &[u8],
    words: &mut [u32],
    longs: &mut [u64],
    floats: &mut [f32],
    contexts: &mut [u16],
    history: &mut [f32],
    frames: &mut [f32],
    reply: &mut [u8],
    out: &mut [u8],
) -> Line
    requires frames_len_bound { length frames.old ≤ 128 }
    requires reply_len_bound { length reply.old ≤ 16384 }
    requires in_bounds { 65536 ≤ length out.old }
    ensures size_after { written result.number
        (held (state_of words.new longs.new floats.new contexts.new history.new)
        frames.new reply.new)
        (text out.new result.size)
        ≡ written_on out.old (call_step call d.now memory.now
        (held (state_of words.old longs.old floats.old contexts.old history.old)
        frames.old reply.old)) }
    ensures size_in_bounds { result.size ≤ length out.new }
{
    let Some(call) = call else {
        return refused(10, out);
    };
    match call {
        Call::Render => run_render(memory, words, longs, floats, contexts, history, frames, out),
        Call::Update { expected, size } => run_update(
            expected,
            fields::section(d, 9, size as usize),
            words,
            longs,
            floats,
            contexts,
            history,
            reply,
            out,
        ),
    }
}
