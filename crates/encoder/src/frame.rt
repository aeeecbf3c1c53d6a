// One frame: its header and its nibbles.
ghost use Rattle.std.specs.Prelude.{◌≡◌, ◌+◌, ◌*◌, ◌/◌, ◌≤◌, ◌<◌, length, drop};
ghost use Rattle.trial.specs.Trial.{frame_samples};
ghost use Rattle.encoder.specs.Frame.{frame_size, Packs, Puts, Frames};

use adpcm::{AdpcmContext, pair};
use nearest::choose_nibble;
use trial::keep_header;

// Two nibbles in a byte, the earlier one high.
fn pack(high: u8, low: u8) -> u8
    requires { (high < 16) × (low < 16) }
    ensures { result ≡ high * 16 + low }
{
    high * 16 + low
}

// The byte with the nibbles of samples i and i + 1, or with a last one and 0, and the last two samples then, the later first; with the
// scale s and the pair c, d, after the samples h0 and h1.
fn next_byte(samples: &[i16], i: usize, s: u16, c: i16, d: i16, h0: i16, h1: i16) -> (u8, i16, i16)
    requires { (s < 16) × (i < length samples.now) }
    ensures { Packs s c d (drop i samples.now) (drop (i + 2) samples.now) h0 h1 result.0 result.1 result.2 }
{
    let one = choose_nibble(samples[i], s, c, d, h0, h1);
    let y = one.sample;
    if samples.len() <= i + 1 {
        return (pack(one.nibble, 0), y, h0);
    }
    let two = choose_nibble(samples[i + 1], s, c, d, y, h0);
    (pack(one.nibble, two.nibble), two.sample, y)
}

// Writes the nibbles of a frame's samples, with the scale s and the pair c, d, after the samples h0 and h1: the last two samples then, the
// later first.
fn put_nibbles(
    samples: &[i16],
    s: u16,
    c: i16,
    d: i16,
    h0: i16,
    h1: i16,
    out: &mut [u8],
) -> (i16, i16)
    requires { (s < 16) × (length samples.now ≤ frame_samples) × (length out.old ≡ (length samples.now + 1) / 2) }
    ensures { Puts s c d samples.now h0 h1 out.new result.0 result.1 }
{
    let mut a = h0;
    let mut b = h1;
    for j in 0..out.len() {
        let (byte, y, z) = next_byte(samples, 2 * j, s, c, d, a, b);
        out[j] = byte;
        a = y;
        b = z;
    }
    (a, b)
}

// What an encoding leaves: the context, and the sum of squared differences.
#[derive(Clone, Copy)]
pub struct Encoding {
    pub context: AdpcmContext,
    pub error: u64,
}

// A frame of 1 to 14 samples, with the header that is kept for it. The header that the context comes with is tried first.
pub fn encode_frame(
    samples: &[i16],
    coefficients: &[i16; 16],
    ctx: AdpcmContext,
    out: &mut [u8],
) -> Encoding
    requires { (length samples.now ≤ frame_samples) × (length out.old ≡ frame_size (length samples.now)) }
    ensures { Frames coefficients.now samples.now ctx out.new result.context result.error }
{
    let h0 = ctx.history0;
    let h1 = ctx.history1;
    let seed = (ctx.pred_scale % 128) as u8;
    let kept = keep_header(samples, coefficients, h0, h1, seed);
    let header = kept.header;
    let (c, d) = pair(coefficients, u16::from(header));
    let (y, z) = put_nibbles(samples, u16::from(header % 16), c, d, h0, h1, &mut out[1..]);
    out[0] = header;
    let context = AdpcmContext {
        pred_scale: u16::from(header),
        history0: y,
        history1: z,
    };
    Encoding {
        context,
        error: kept.error,
    }
}
