// Decodes the ADPCM clips on standard input and writes their samples in decimal, one to a line. What it must write is what the decoder
// `adpcm_thp` of ffmpeg gives for the same clips (compare/thp).
// A clip: the size of its data (4 bytes), 16 coefficients of 16 bits, the data. The context is 0. All clips together have at most 4,096
// bytes.
#![tactic(auto)]

ghost use Rattle.std.specs.Prelude.{◌≤◌, ◌<◌, length, IfOk, IfSome};

use adpcm::{AdpcmContext, Sample};
use std::io;

const HEADER: usize = 36;

// The samples of the longest clip.
const MOST: usize = 512;

// A whole sample as its number.
fn print_sample(rt: &impl Print, x: f32) -> io::Result<()> {
    if x < 0.0 {
        rt.write_all(b"-")?;
        rt.println(floats::as_usize(-x) as u64)
    } else {
        rt.println(floats::as_usize(x) as u64)
    }
}

// The first n of s, or all of it.
fn print_samples(rt: &impl Print, s: &[f32], n: usize) -> io::Result<()> {
    for x in &s[..n.min(s.len())] {
        print_sample(rt, *x)?;
    }
    Ok(())
}

// Decodes a clip's data by its coefficients, and prints the samples.
fn decode(rt: &impl Print, coefficients: &[u8], clip: &[u8], out: &mut [f32]) -> io::Result<()> {
    let pairs = adpcm::coefficients(coefficients);
    let ctx = AdpcmContext::default();
    let count = out.len();
    match adpcm::decode_adpcm_checked(clip, Sample(0), count, &pairs, ctx, out) {
        Ok(d) => print_samples(rt, out, d.done),
        Err(_) => Ok(()),
    }
}

// The clip at the front of c: the number of bytes read, or nothing where it is not whole. An error is that of a write.
fn clip(rt: &impl Print, c: &[u8], out: &mut [f32]) -> io::Result<Option<usize>>
    ensures { IfOk result (λ o. IfSome o (λ n. (0 < n) × (n ≤ length c.now))) }
{
    let size = fields::u32_at(c, 0) as usize;
    let end = HEADER + size;
    let Some(data) = c.get(HEADER..end) else {
        return Ok(None);
    };
    decode(rt, &c[4..HEADER], data, out)?;
    Ok(Some(end))
}

// Every clip in turn, up to the end of the input or the first that is not whole.
fn clips(rt: &impl Print, d: &[u8], out: &mut [f32]) -> io::Result<()> {
    let mut left = d;
    while let Some(read) = clip(rt, left, out)? {
        left = &left[read..];
    }
    Ok(())
}

fn main(rt: HostRuntime) -> io::Result<()> {
    let mut input = [0u8; 4096];
    let n = read_input::read_full(&mut rt.stdin(), &mut input)?;
    let mut out = [0.0f32; MOST];
    clips(&rt, &input[..n], &mut out)
}
