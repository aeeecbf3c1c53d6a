// Samples encoded, frame by frame, and the call for it.
ghost use Rattle.std.specs.Prelude.{◌≡◌, ◌+◌, ◌≤◌, length};
ghost use Rattle.adpcm.specs.Places.{size_of};
ghost use Rattle.encoder.specs.Answer.{Encodes, number_of, encode_seen, encode_call};

use crate::frame::{Encoding, encode_frame};
use adpcm::{ADPCM_SAMPLES_PER_FRAME, AdpcmContext, Sample, adpcm_size};

const FRAME_SAMPLES: usize = ADPCM_SAMPLES_PER_FRAME as usize;

// Encodes all samples, to an output that is just long enough.
fn encode_frames(
    samples: &[i16],
    coefficients: &[i16; 16],
    ctx: AdpcmContext,
    out: &mut [u8],
) -> Encoding
    requires { length out.old ≡ size_of (length samples.now) }
    ensures { Encodes coefficients.now samples.now ctx out.new result.context result.error }
{
    let mut x = ctx;
    let mut error = 0u64;
    let mut at = 0usize;
    let mut put = 0usize;
    while at < samples.len() {
        let n = (samples.len() - at).min(FRAME_SAMPLES);
        let w = 1 + (n + 1) / 2;
        let end = at + n;
        let next = put + w;
        let f = encode_frame(&samples[at..end], coefficients, x, &mut out[put..next]);
        x = f.context;
        error = error.saturating_add(f.error);
        at = end;
        put = next;
    }
    Encoding { context: x, error }
}

// Why a call is refused.
#[derive(Clone, Copy, Debug, PartialEq, Eq)]
pub enum EncodeError {
    // The output is shorter than adpcm_size of the samples.
    ShortOutput,
}

impl EncodeError {
    // The number of the question that refuses it.
    pub fn number(self) -> u32
        ensures { result ≡ number_of self }
    {
        match self {
            EncodeError::ShortOutput => 15,
        }
    }
}

// Encodes samples, after the context's last two, to the front of out: the size of the bytes, and what the encoding leaves, whose sum is
// held at 2^64 - 1.
pub fn encode_adpcm(
    samples: &[i16],
    coefficients: &[i16; 16],
    ctx: AdpcmContext,
    out: &mut [u8],
) -> Result<(usize, Encoding), EncodeError>
    ensures { encode_seen result out.new
        ≡ encode_call samples.now coefficients.now ctx out.old }
{
    let size = adpcm_size(Sample(samples.len() as u64)).0 as usize;
    if out.len() < size {
        return Err(EncodeError::ShortOutput);
    }
    let left = encode_frames(samples, coefficients, ctx, &mut out[..size]);
    Ok((size, left))
}
