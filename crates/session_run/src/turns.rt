// The calls of a session, one after the other. Each line is printed when its call has run; a refusal ends the run.
ghost use Rattle.std.specs.Prelude.{◌≡◌, [], ◌∷◌, ◌+◌, ◌≤◌, ◌<◌, length, take, drop, OnOk, OnErr, IfOk};
ghost use Rattle.state.specs.State.{state_of};
ghost use Rattle.session.specs.Input.{call_count, calls_of, memory_of};
ghost use Rattle.session.specs.Lines.{refused_line};
ghost use Rattle.session_calls.specs.Steps.{held};
ghost use Rattle.session_run.specs.Lines.{first_step, call_lines, lines_of, LineAt, turn_of, told, told_of};

use crate::WriteFailed;
use session::Call;

// Prints the first n bytes of `out`, which are the next line of the run that the input asks for: `printed` counts the lines.
// Nothing else in the program prints. Where the write fails, the line doesn't count.
fn print_line(
    rt: &impl Print,
    input: &[u8],
    printed: &mut u32,
    out: &[u8],
    n: usize,
) -> Result<(), WriteFailed>
    requires printed_bound { printed.old < 4294967295 }
    requires n_in_bounds { n ≤ length out.now }
    requires line_at { LineAt (lines_of input.now) printed.old (take n out.now) }
    ensures ok { OnOk result (printed.new ≡ printed.old + 1) }
    ensures err { OnErr result (printed.new ≡ printed.old) }
{
    crate::output::write(rt, &out[..n])?;
    *printed += 1;
    Ok(())
}

// Prints a refusal's line, which is the only one of the run.
pub fn refuse(
    rt: &impl Print,
    input: &[u8],
    number: u32,
    printed: &mut u32,
    out: &mut [u8],
) -> Result<(), WriteFailed>
    requires in_bounds { 65536 ≤ length out.old }
    requires printed_value { printed.old ≡ 0 }
    requires input_value { lines_of input.now ≡ refused_line number ∷ [] }
    ensures ok { OnOk result (printed.new ≡ length (lines_of input.now)) }
    ensures err { OnErr result (printed.new < length (lines_of input.now)) }
{
    let n = session::refused_line(number, out);
    print_line(rt, input, printed, out, n)
}

// Runs the call that begins at a place in the calls, and prints its line, which is the next one of the run. Gives how far on the next
// call begins, or none where this one is refused.
fn turn(
    rt: &impl Print,
    input: &[u8],
    at: usize,
    printed: &mut u32,
    words: &mut [u32],
    longs: &mut [u64],
    floats: &mut [f32],
    contexts: &mut [u16],
    history: &mut [f32],
    frames: &mut [f32],
    reply: &mut [u8],
    out: &mut [u8],
) -> Result<Option<usize>, WriteFailed>
    requires frames_len_bound { (length frames.old ≤ 128) × (length reply.old ≤ 16384) × (65536 ≤ length out.old) }
    requires printed_bound { printed.old < 4294967295 }
    requires line_at { LineAt (lines_of input.now) printed.old (first_step (drop at (calls_of input.now)) (memory_of input.now)
        (held (state_of words.old longs.old floats.old contexts.old history.old) frames.old reply.old)).line }
    ensures printed_after { OnOk result (printed.new ≡ printed.old + 1) }
    ensures reply_after { IfOk result (λ next. told next
        (held (state_of words.new longs.new floats.new contexts.new history.new)
        frames.new reply.new)
        ≡ told_of (turn_of (drop at (calls_of input.now)) (memory_of input.now)
        (held (state_of words.old longs.old floats.old contexts.old history.old)
        frames.old reply.old))) }
    ensures err { OnErr result (printed.new ≡ printed.old) }
{
    let d = fields::rest(session::calls(input), at);
    let call = session::first_call(d);
    let line = session_calls::run_call(
        call,
        d,
        session::memory(input),
        words,
        longs,
        floats,
        contexts,
        history,
        frames,
        reply,
        out,
    );
    print_line(rt, input, printed, out, line.size)?;
    if line.number != 0 {
        return Ok(None);
    }
    Ok(Some(call.map_or(0, Call::size)))
}

// Runs the calls until one is refused.
pub fn run(
    rt: &impl Print,
    input: &[u8],
    printed: &mut u32,
    words: &mut [u32],
    longs: &mut [u64],
    floats: &mut [f32],
    contexts: &mut [u16],
    history: &mut [f32],
    frames: &mut [f32],
    reply: &mut [u8],
    out: &mut [u8],
) -> Result<(), WriteFailed>
    requires frames_len_bound { (length frames.old ≤ 128) × (length reply.old ≤ 16384) × (65536 ≤ length out.old) }
    requires printed_value { printed.old ≡ 0 }
    requires input_value { lines_of input.now ≡ call_lines (call_count input.now) (calls_of input.now) (memory_of input.now)
        (held (state_of words.old longs.old floats.old contexts.old history.old) frames.old reply.old) }
    ensures ok { OnOk result (printed.new ≡ length (lines_of input.now)) }
    ensures err { OnErr result (printed.new < length (lines_of input.now)) }
{
    let mut at = 0;
    let n = session::call_count(input);
    for _ in 0..n {
        let next = turn(
            rt, input, at, printed, words, longs, floats, contexts, history, frames, reply, out,
        )?;
        match next {
            Some(size) => at += size,
            None => return Ok(()),
        }
    }
    Ok(())
}
