// A session as its program runs it: a renderer is opened, the calls are run in turn, and a line is printed for each as it is run.
#![tactic(auto)]

mod output;
mod room;
mod turns;

ghost use Rattle.std.specs.Prelude.{◌≡◌, ◌≤◌, ◌<◌, length, OnOk, OnErr, IfOk};
ghost use Rattle.session_run.specs.Lines.{lines_of};

pub use output::WriteFailed;

// Prints the run's lines, and counts them. Question 10 is asked of the whole input before anything else is done with it.
fn print_run(
    rt: &impl Print,
    input: &[u8],
    printed: &mut u32,
    out: &mut [u8],
) -> Result<(), WriteFailed>
    requires in_bounds { 65536 ≤ length out.old }
    requires printed_value { printed.old ≡ 0 }
    ensures ok { OnOk result (printed.new ≡ length (lines_of input.now)) }
    ensures err { OnErr result (printed.new < length (lines_of input.now)) }
{
    if !session::accepted(input) {
        return turns::refuse(rt, input, 10, printed, out);
    }
    let p = session::parameters(input);
    match renderer::lengths(p) {
        Ok(at) => room::make(rt, input, p, at, printed, out),
        Err(e) => turns::refuse(rt, input, e.number(), printed, out),
    }
}

// Prints the lines of the run that the input asks for, and gives how many they are. The input has the parameters, sample memory and the
// calls, each section after its 32-bit count; `out` is room for a line. The first write that fails ends the run: the lines
// before its own are printed.
pub fn answer(rt: &impl Print, input: &[u8], out: &mut [u8]) -> Result<u32, WriteFailed>
    requires { 65536 ≤ length out.old }
    ensures { IfOk result (λ n. n ≡ length (lines_of input.now)) }
{
    let mut printed = 0;
    print_run(rt, input, &mut printed, out)?;
    Ok(printed)
}
