// Samples in decimal on standard output, a frame of 14 to a line.
#![tactic(auto)]

use std::io;

// A whole sample as its number.
fn print_sample(rt: &impl Print, x: f32) -> io::Result<()> {
    if x < 0.0 {
        rt.write_all(b"-")?;
        rt.print(floats::as_usize(-x) as u64)
    } else {
        rt.print(floats::as_usize(x) as u64)
    }
}

// The first n of s, or all of it. An error is that of a write.
pub fn print_samples(rt: &impl Print, s: &[f32], n: usize) -> io::Result<()> {
    for (k, x) in s[..n.min(s.len())].iter().enumerate() {
        print_sample(rt, *x)?;
        print_gap(rt, k)?;
    }
    Ok(())
}

// What follows sample k: the end of a line after each frame.
fn print_gap(rt: &impl Print, k: usize) -> io::Result<()> {
    if k % 14 == 13 {
        rt.write_all(b"\n")
    } else {
        rt.write_all(b" ")
    }
}
