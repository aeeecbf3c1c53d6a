// Runs stored cases and writes what the proved code answers to each, a line a case. The stored output is the oracle's answers
// (compare/run store), so that the gate holds the two together.
#![tactic(auto)]

ghost use Rattle.std.specs.Prelude.{◌+◌, ◌<◌, ◌≤◌, length, IfOk, IfSome};

use adpcm::{AdpcmContext, AdpcmError, Decoded, Sample};
use std::io;

// What lies in an output slice before a call.
const FILL: f32 = 0.25;

const ADPCM_HEADER: usize = 59;

const RESAMPLE_HEADER: usize = 21;

fn print_space(rt: &impl Print) -> io::Result<()> {
    rt.write_all(b" ")
}

fn print_end(rt: &impl Print) -> io::Result<()> {
    rt.write_all(b"\n")
}

fn print_hex(rt: &impl Print, n: u32) -> io::Result<()> {
    print_space(rt)?;
    print!(rt; "{n:08x}")
}

fn print_decimal(rt: &impl Print, n: u64) -> io::Result<()> {
    print_space(rt)?;
    rt.print(n)
}

fn print_floats(rt: &impl Print, s: &[f32]) -> io::Result<()> {
    for x in s {
        print_hex(rt, floats::to_bits(*x))?;
    }
    Ok(())
}

// The header, and the two samples as the bits of their floats.
fn print_context(rt: &impl Print, c: AdpcmContext) -> io::Result<()> {
    print_hex(rt, u32::from(c.pred_scale))?;
    print_hex(rt, floats::to_bits(f32::from(c.history0)))?;
    print_hex(rt, floats::to_bits(f32::from(c.history1)))
}

// The number of an answer, how many samples were decoded, and the context that is left.
fn print_outcome(rt: &impl Print, number: u32, done: usize, c: AdpcmContext) -> io::Result<()> {
    print_decimal(rt, u64::from(number))?;
    print_decimal(rt, done as u64)?;
    print_context(rt, c)
}

// One decode: start (8 bytes), count, room and data length (4 each), coefficients (32), context (6), data.
fn adpcm_run(rt: &impl Print, c: &[u8], clip: &[u8], out: &mut [f32]) -> io::Result<()> {
    let start = fields::u64_at(c, 1);
    let count = fields::u32_at(c, 9) as usize;
    let pairs = adpcm::coefficients(fields::rest(c, 21));
    let ctx = AdpcmContext::parse(fields::rest(c, 53));
    out.fill(FILL);
    rt.write_all(b"adpcm")?;
    print_answer(
        rt,
        adpcm::decode_adpcm_checked(clip, Sample(start), count, &pairs, ctx, out),
    )?;
    print_floats(rt, out)?;
    print_end(rt)
}

fn print_answer(rt: &impl Print, a: Result<Decoded, AdpcmError>) -> io::Result<()> {
    match a {
        Ok(d) => print_outcome(rt, 0, d.done, d.context),
        Err(e) => print_outcome(rt, e.number(), 0, AdpcmContext::default()),
    }
}

// Runs a decode and gives the number of bytes read, or nothing where the case is not whole. An error is that of a write.
fn adpcm_case(rt: &impl Print, c: &[u8], out: &mut [f32]) -> io::Result<Option<usize>>
    ensures { IfOk result (λ o. IfSome o (λ n. (0 < n) × (n ≤ length c.now))) }
{
    let room = fields::u32_at(c, 13) as usize;
    let size = fields::u32_at(c, 17) as usize;
    let end = ADPCM_HEADER + size;
    let Some(clip) = c.get(ADPCM_HEADER..end) else {
        return Ok(None);
    };
    if out.len() < room {
        return Ok(None);
    }
    adpcm_run(rt, c, clip, &mut out[..room])?;
    Ok(Some(end))
}

// The inputs of a resample, as bits; 0 past the end.
fn read_floats(d: &[u8], input: &mut [f32]) {
    for (k, x) in input.iter_mut().enumerate() {
        *x = fields::f32_at(d, k.wrapping_mul(4));
    }
}

// One resample: the numbers of inputs, outputs and room, ratio and fraction as bits (4 bytes each), inputs as bits.
fn resample_run(rt: &impl Print, c: &[u8], input: &mut [f32], out: &mut [f32]) -> io::Result<()> {
    let count = fields::u32_at(c, 5);
    let ratio = fields::f32_at(c, 13);
    let fraction = fields::f32_at(c, 17);
    if input.len() < 3 || input.len() > 64 || out.len() < count as usize {
        return Ok(());
    }
    read_floats(fields::rest(c, RESAMPLE_HEADER), input);
    out.fill(FILL);
    let next = resample::resample(input, out, count, ratio, fraction);
    rt.write_all(b"resample")?;
    print_decimal(rt, resample::needed(fraction, ratio, count) as u64)?;
    print_hex(rt, floats::to_bits(next))?;
    print_floats(rt, out)?;
    print_end(rt)
}

// Runs a resample and gives the number of bytes read, or nothing where the case is not whole. An error is that of a write.
fn resample_case(
    rt: &impl Print,
    c: &[u8],
    input: &mut [f32],
    out: &mut [f32],
) -> io::Result<Option<usize>>
    ensures { IfOk result (λ o. IfSome o (λ n. (0 < n) × (n ≤ length c.now))) }
{
    let n = fields::u32_at(c, 1) as usize;
    let room = fields::u32_at(c, 9) as usize;
    let end = RESAMPLE_HEADER + n * 4;
    if input.len() < n || n > 64 || out.len() < room || c.len() < end {
        return Ok(None);
    }
    resample_run(rt, c, &mut input[..n], &mut out[..room])?;
    Ok(Some(end))
}

// The case at the front of c: the number of bytes read, or nothing where it is none. An error is that of a write.
fn case(rt: &impl Print, c: &[u8], input: &mut [f32], out: &mut [f32]) -> io::Result<Option<usize>>
    ensures { IfOk result (λ o. IfSome o (λ n. (0 < n) × (n ≤ length c.now))) }
{
    match fields::byte_at(c, 0) {
        1 => adpcm_case(rt, c, out),
        2 => resample_case(rt, c, input, out),
        _ => Ok(None),
    }
}

// Every case in turn, up to the end of the input or the first that is none.
fn replay(rt: &impl Print, d: &[u8], input: &mut [f32], out: &mut [f32]) -> io::Result<()> {
    let mut left = d;
    while let Some(read) = case(rt, left, input, out)? {
        left = &left[read..];
    }
    Ok(())
}

fn main(rt: HostRuntime) -> io::Result<()> {
    let mut cases = [0u8; 65536];
    let n = read_input::read_full(&mut rt.stdin(), &mut cases)?;
    let mut input = [0.0f32; 64];
    let mut out = [0.0f32; 256];
    replay(&rt, &cases[..n], &mut input, &mut out)
}
