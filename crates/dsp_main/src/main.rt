// Reads a DSP file from standard input and writes its header by name, how long its data is, and its samples in decimal,
// a frame of 14 to a line; or the number of the question that refuses it.
#![tactic(auto)]

mod print;

ghost use Rattle.std.specs.Prelude.{◌≡◌, ◌<◌, ◌^◌, length};

use adpcm::{AdpcmContext, Sample};
use dsp_header::DspHeader;
use print::{print_context, print_field, print_numbers};
use std::io;

// The longest file that is taken.
const MOST: usize = 524288;

// How many samples are decoded at once: whole frames.
const CHUNK: usize = 3584;

const CHUNK_BYTES: usize = 2048;

// The samples of chunk k, of which n are wanted; the context for the next chunk.
fn print_chunk(
    rt: &impl Print,
    data: &[u8],
    k: usize,
    n: usize,
    pairs: &[i16; 16],
    x: AdpcmContext,
) -> io::Result<AdpcmContext>
    requires { k < 2 ^ 32 }
{
    let mut out = [0.0f32; CHUNK];
    let frames = fields::rest(data, k * CHUNK_BYTES);
    match adpcm::decode_adpcm_checked(frames, Sample((k * CHUNK) as u64), n, pairs, x, &mut out) {
        Ok(d) => {
            sample_lines::print_samples(rt, &out, d.done)?;
            Ok(d.context)
        }
        Err(_) => Ok(x),
    }
}

// All samples of a clip.
fn print_clip(
    rt: &impl Print,
    data: &[u8],
    samples: usize,
    pairs: &[i16; 16],
    first: AdpcmContext,
) -> io::Result<()>
    requires { samples < 2 ^ 32 }
{
    let mut x = first;
    for k in 0..samples / CHUNK + 1 {
        let n = (samples - k * CHUNK).min(CHUNK);
        x = print_chunk(rt, data, k, n, pairs, x)?;
    }
    Ok(())
}

// The values of a header, a line each.
fn print_header(rt: &impl Print, h: DspHeader) -> io::Result<()> {
    print_field(rt, b"samples", u64::from(h.samples))?;
    print_field(rt, b"nibbles", u64::from(h.nibbles))?;
    print_field(rt, b"rate", u64::from(h.rate))?;
    print_field(rt, b"loop_flag", u64::from(h.loop_flag))?;
    print_field(rt, b"format", u64::from(h.format))?;
    print_field(rt, b"loop_start", u64::from(h.loop_start))?;
    print_field(rt, b"loop_end", u64::from(h.loop_end))?;
    print_field(rt, b"address", u64::from(h.address))?;
    print_numbers(rt, b"coefficients", &h.coefficients)?;
    print_field(rt, b"gain", u64::from(h.gain))?;
    print_context(rt, b"start_context", h.start_context)?;
    print_context(rt, b"loop_context", h.loop_context)
}

// A file that is accepted.
fn print_file(rt: &impl Print, h: DspHeader, data: &[u8]) -> io::Result<()> {
    print_header(rt, h)?;
    let held = adpcm::adpcm_size(Sample(u64::from(h.samples)));
    print_field(rt, b"data", data.len() as u64)?;
    print_field(rt, b"holding samples", held.0)?;
    print_field(rt, b"beyond", adpcm::Byte(data.len() as u64).past(held))?;
    print_clip(
        rt,
        data,
        h.samples as usize,
        &h.coefficients,
        h.start_context,
    )
}

// Room for the longest file, and a byte more.
fn room() -> [u8; 524289]
    ensures { 524289 ≡ length result }
{
    [0; 524289]
}

// What is written of an input that is so long that it may be cut.
fn too_long(rt: &impl Print) -> io::Result<()> {
    print_field(rt, b"too long: the most bytes are", MOST as u64)
}

// A file, whatever its bytes.
fn print_answer(rt: &impl Print, file: &[u8]) -> io::Result<()> {
    match dsp_file::read_dsp(file) {
        Ok(header) => print_file(rt, header, dsp_file::dsp_data(file)),
        Err(e) => print_field(rt, b"refused", u64::from(e.number())),
    }
}

fn main(rt: HostRuntime) -> io::Result<()> {
    let mut input = room();
    let n = read_input::read_full(&mut rt.stdin(), &mut input)?;
    if n <= MOST {
        print_answer(&rt, &input[..n])
    } else {
        too_long(&rt)
    }
}
