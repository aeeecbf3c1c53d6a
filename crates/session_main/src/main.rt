// The session program: runs the session that stands in standard input.
// One byte more than is accepted is read, so that it is noticed.
#![tactic(auto)]

use std::io;

fn main(rt: HostRuntime) -> io::Result<()> {
    let mut input = [0u8; 65537];
    let n = read_input::read_full(&mut rt.stdin(), &mut input)?;
    let mut out = [0u8; 65536];
    session_run::answer(&rt, &input[..n], &mut out)?;
    Ok(())
}
