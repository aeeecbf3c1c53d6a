// Runs stored sessions, each after its 32-bit length. The stored output is what the oracle prints for them (compare/run store), so that the gate holds
// the two together.
#![tactic(auto)]

ghost use Rattle.std.specs.Prelude.{◌≤◌, length};

use std::io;

// Runs the session that stands at a place, and gives its length. An error is that of a write.
fn run_at(rt: &impl Print, input: &[u8], at: usize, out: &mut [u8]) -> io::Result<u32>
    requires { 65536 ≤ length out.old }
{
    let d = fields::rest(input, at);
    let n = fields::u32_at(d, 0);
    session_run::answer(rt, fields::section(d, 4, n as usize), out)?;
    Ok(n)
}

fn run_all(rt: &impl Print, input: &[u8], out: &mut [u8]) -> io::Result<()>
    requires { 65536 ≤ length out.old }
{
    let mut at = 0;
    while at < input.len() {
        let n = run_at(rt, input, at, out)?;
        at += 4 + n as usize;
    }
    Ok(())
}

fn main(rt: HostRuntime) -> io::Result<()> {
    let mut input = [0u8; 196608];
    let n = read_input::read_full(&mut rt.stdin(), &mut input)?;
    let mut out = [0u8; 65536];
    run_all(&rt, &input[..n], &mut out)
}
