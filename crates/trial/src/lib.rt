// One frame tried with each header: the one that is kept has the least sum of squared differences, the lowest header byte first.
#![tactic(auto)]

ghost use Rattle.std.specs.Prelude.{◌≡◌, ◌≤◌, ◌<◌, ◌*◌, min, length};
ghost use Rattle.trial.specs.Trial.{frame_samples, most_square, most_error, sum_of, error_of};
ghost use Rattle.trial.specs.Kept.{better_of, Keeps};

use nearest::choose_nibble;

// A limit that no frame's sum reaches.
const NO_LIMIT: u64 = 0x100_0000_0000;

// A header byte is predictor × 16 + scale: 8 predictors, 16 scales.
const HEADERS: u8 = 128;

// The square of a difference of two samples.
fn square(difference: u32) -> u64
    requires { difference ≤ 65535 }
    ensures { (result ≡ difference * difference) × (result ≤ most_square) }
{
    let d = u64::from(difference);
    d * d
}

// The sum of squared differences of a frame's samples with the scale s and the pair c, d, after the samples h0 and h1; or limit where it
// reaches that.
fn try_pair(samples: &[i16], s: u16, c: i16, d: i16, h0: i16, h1: i16, limit: u64) -> u64
    requires { (s < 16) × (length samples.now ≤ frame_samples) }
    ensures { (result ≡ min limit (sum_of s c d samples.now h0 h1)) × (result ≤ most_error) }
{
    let mut a = h0;
    let mut b = h1;
    let mut sum = 0;
    for x in samples {
        if limit <= sum {
            return limit;
        }
        let next = choose_nibble(*x, s, c, d, a, b);
        sum += square(next.difference);
        b = a;
        a = next.sample;
    }
    sum.min(limit)
}

// The same with the header b.
fn try_header(samples: &[i16], b: u8, coefficients: &[i16; 16], h0: i16, h1: i16, limit: u64) -> u64
    requires { length samples.now ≤ frame_samples }
    ensures { (result ≡ min limit (error_of coefficients.now samples.now h0 h1 b)) × (result ≤ most_error) }
{
    let (c, d) = adpcm::pair(coefficients, u16::from(b));
    try_pair(samples, u16::from(b % 16), c, d, h0, h1, limit)
}

// A header and its sum.
#[derive(Clone, Copy)]
pub struct Kept {
    pub header: u8,
    pub error: u64,
}

// The header b if its sum is less than that of the one kept.
fn better(kept: Kept, b: u8, error: u64) -> Kept
    ensures { result ≡ better_of kept b error }
{
    if error < kept.error {
        Kept { header: b, error }
    } else {
        kept
    }
}

// The header that is kept for a frame of up to 14 samples, after the samples h0 and h1, and its sum. The sum of the header `seed`,
// whichever it is, is taken first, so that the others are given up sooner.
pub fn keep_header(samples: &[i16], coefficients: &[i16; 16], h0: i16, h1: i16, seed: u8) -> Kept
    requires { (length samples.now ≤ frame_samples) × (seed < 128) }
    ensures { Keeps coefficients.now samples.now h0 h1 result.header result.error }
{
    let known = try_header(samples, seed, coefficients, h0, h1, NO_LIMIT);
    let above = known + 1;
    let mut kept = Kept {
        header: 0,
        error: above,
    };
    for b in 0..HEADERS {
        let error = try_header(samples, b, coefficients, h0, h1, kept.error);
        kept = better(kept, b, error);
    }
    kept
}
