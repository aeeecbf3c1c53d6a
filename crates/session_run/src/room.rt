// Room for a session: arrays of the largest sizes that question 10 allows, with 8 sinks (question 2), lent as far as the parameters ask.
ghost use Rattle.std.specs.Prelude.{◌≡◌, ◌≤◌, ◌<◌, length, replicate, OnOk, OnErr};
ghost use Rattle.renderer.specs.Answers.{lengths_seen};
ghost use Rattle.state.specs.State.{state_of};
ghost use Rattle.session.specs.Input.{parameters_of};
ghost use Rattle.session.specs.Asked.{Small};
ghost use Rattle.session_calls.specs.Steps.{held};
ghost use Rattle.session_run.specs.Lines.{room, open_lines, lines_of};
ghost use Rattle.session_run.specs.Room.{Fits};

use crate::WriteFailed;
use params::Params;
use renderer::Lengths;

// An array of zeros.
fn zeroed<T: Copy, const N: usize>(zero: T) -> [T; N]
    ensures { (N ≡ length result) × (result ≡ replicate N zero) }
{
    [zero; N]
}

// Lends each slice at exactly the length that the parameters ask for.
pub fn make(
    rt: &impl Print,
    input: &[u8],
    p: Params,
    at: Lengths,
    printed: &mut u32,
    out: &mut [u8],
) -> Result<(), WriteFailed>
    requires p_value { (p ≡ parameters_of input.now) × (Small p) × (Fits at) }
    requires in_bounds { 65536 ≤ length out.old }
    requires printed_value { printed.old ≡ 0 }
    requires input_value { lines_of input.now ≡ open_lines input.now (room p (lengths_seen (Ok at))) }
    ensures ok { OnOk result (printed.new ≡ length (lines_of input.now)) }
    ensures err { OnErr result (printed.new < length (lines_of input.now)) }
{
    let mut words = zeroed::<u32, 1390>(0);
    let mut longs = zeroed::<u64, 57>(0);
    let mut floats = zeroed::<f32, 2932>(0.0);
    let mut contexts = zeroed::<u16, 12>(0);
    let mut history = zeroed::<f32, 72>(0.0);
    let mut frames = zeroed::<f32, 128>(0.0);
    let mut reply = zeroed::<u8, 16384>(0);
    open(
        rt,
        input,
        p,
        &mut words[..at.words],
        &mut longs[..at.longs],
        &mut floats[..at.floats],
        &mut contexts[..at.contexts],
        &mut history[..at.history],
        &mut frames[..2 * p.sample_count as usize],
        &mut reply,
        printed,
        out,
    )
}

// Opens the renderer and runs the calls.
fn open(
    rt: &impl Print,
    input: &[u8],
    p: Params,
    words: &mut [u32],
    longs: &mut [u64],
    floats: &mut [f32],
    contexts: &mut [u16],
    history: &mut [f32],
    frames: &mut [f32],
    reply: &mut [u8],
    printed: &mut u32,
    out: &mut [u8],
) -> Result<(), WriteFailed>
    requires p_value { p ≡ parameters_of input.now }
    requires frames_len_bound { (length frames.old ≤ 128) × (length reply.old ≤ 16384) × (65536 ≤ length out.old) }
    requires printed_value { printed.old ≡ 0 }
    requires input_value { lines_of input.now ≡ open_lines input.now
        (held (state_of words.old longs.old floats.old contexts.old history.old) frames.old reply.old) }
    ensures ok { OnOk result (printed.new ≡ length (lines_of input.now)) }
    ensures err { OnErr result (printed.new < length (lines_of input.now)) }
{
    match renderer::open(p, words, longs, floats, contexts, history) {
        Ok(()) => crate::turns::run(
            rt, input, printed, words, longs, floats, contexts, history, frames, reply, out,
        ),
        Err(e) => crate::turns::refuse(rt, input, e.number(), printed, out),
    }
}
