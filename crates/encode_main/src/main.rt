// Encodes a recording from standard input and writes its ADPCM frames in hexadecimal, a frame to a line after its predictor and scale;
// the samples that they decode to in decimal, a frame to a line; and the sum of the squared differences between these and the recording's.
// The recording: 16 coefficients of 16 bits, the context's three numbers of 16 bits, and samples of 16 bits up to the end, little-endian.
// At most 4,096 bytes are read.
#![tactic(auto)]

use adpcm::{AdpcmContext, Sample};
use std::io;

const HEADER: usize = 38;

// The samples of the longest recording, and the bytes that they take.
const MOST: usize = 2029;

const MOST_BYTES: usize = 1160;

// The samples that stand in bytes; 0 past the end.
fn take_samples(bytes: &[u8], out: &mut [i16]) {
    for (k, x) in out.iter_mut().enumerate() {
        *x = fields::u16_at(bytes, 2 * k).cast_signed();
    }
}

// A frame's header in words.
fn print_header(rt: &impl Print, header: u8) -> io::Result<()> {
    let predictor = header / 16;
    let scale = header % 16;
    print!(rt; "predictor {predictor} scale {scale}:")
}

// A frame, up to 8 bytes, after its header in words.
fn print_frame(rt: &impl Print, frame: &[u8]) -> io::Result<()> {
    if let Some(header) = frame.first() {
        print_header(rt, *header)?;
    }
    for &byte in frame {
        print!(rt; " {byte:02x}")?;
    }
    rt.write_all(b"\n")
}

// All frames, a line each.
fn print_frames(rt: &impl Print, bytes: &[u8]) -> io::Result<()> {
    for frame in bytes.chunks(8) {
        print_frame(rt, frame)?;
    }
    Ok(())
}

// What the frames decode to, so many samples.
fn print_decoded(
    rt: &impl Print,
    bytes: &[u8],
    count: usize,
    pairs: &[i16; 16],
    ctx: AdpcmContext,
) -> io::Result<()> {
    let mut out = [0.0f32; MOST];
    if let Ok(d) = adpcm::decode_adpcm_checked(bytes, Sample(0), count, pairs, ctx, &mut out) {
        sample_lines::print_samples(rt, &out, d.done)?;
    }
    if count % 14 > 0 {
        rt.write_all(b"\n")?;
    }
    Ok(())
}

// Samples encoded, and what they decode to.
fn print_encoded(
    rt: &impl Print,
    samples: &[i16],
    pairs: &[i16; 16],
    ctx: AdpcmContext,
) -> io::Result<()> {
    let mut out = [0u8; MOST_BYTES];
    match encoder::encode_adpcm(samples, pairs, ctx, &mut out) {
        Ok((size, left)) => {
            let frames = fields::section(&out, 0, size);
            print_frames(rt, frames)?;
            print_decoded(rt, frames, samples.len(), pairs, ctx)?;
            let error = left.error;
            println!(rt; "error {error}")
        }
        Err(_) => Ok(()),
    }
}

// The first n samples.
fn print_first(
    rt: &impl Print,
    samples: &[i16],
    n: usize,
    pairs: &[i16; 16],
    ctx: AdpcmContext,
) -> io::Result<()> {
    match samples.get(..n) {
        Some(first) => print_encoded(rt, first, pairs, ctx),
        None => Ok(()),
    }
}

// A recording, whatever its bytes.
fn print_recording(rt: &impl Print, recording: &[u8]) -> io::Result<()> {
    let pairs = adpcm::coefficients(recording);
    let ctx = AdpcmContext::parse(fields::rest(recording, 32));
    let bytes = fields::rest(recording, HEADER);
    let mut samples = [0i16; MOST];
    take_samples(bytes, &mut samples);
    print_first(rt, &samples, bytes.len() / 2, &pairs, ctx)
}

fn main(rt: HostRuntime) -> io::Result<()> {
    let mut input = [0u8; 4096];
    let n = read_input::read_full(&mut rt.stdin(), &mut input)?;
    print_recording(&rt, &input[..n])
}
