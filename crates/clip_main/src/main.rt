// Decodes an ADPCM clip from standard input and writes its samples in decimal, a frame of 14 to a line.
// The clip: 16 coefficients of 16 bits, the context's three numbers of 16 bits, and frames of 8 bytes up to the end.
#![tactic(auto)]

use adpcm::{AdpcmContext, Sample};
use std::io;

const HEADER: usize = 38;

const MOST: usize = 4096;

fn main(rt: HostRuntime) -> io::Result<()> {
    let mut input = [0u8; 4096];
    let n = read_input::read_full(&mut rt.stdin(), &mut input)?;
    let clip = &input[..n];
    let pairs = adpcm::coefficients(clip);
    let ctx = AdpcmContext::parse(fields::rest(clip, 32));
    let mut out = [0.0f32; MOST];
    let answer = adpcm::decode_adpcm_checked(
        fields::rest(clip, HEADER),
        Sample(0),
        MOST,
        &pairs,
        ctx,
        &mut out,
    );
    match answer {
        Ok(d) => sample_lines::print_samples(&rt, &out, d.done),
        Err(_) => Ok(()),
    }
}
