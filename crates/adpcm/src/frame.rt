// A whole frame of ADPCM, eight bytes, decoded at once.
ghost use Rattle.std.specs.Prelude.{◌≡◌, ◌%◌, ◌+◌, ◌≤◌, T, length};
ghost use Rattle.adpcm.specs.Decode.{run_of, Decodes};

use crate::context::{AdpcmContext, pair};
use crate::places::Sample;
use crate::step::step;

// Whether a whole frame is to be decoded next: sample m starts one, 8 bytes are left from its place, and 14 samples of count.
pub fn begins_frame(bytes: usize, at: usize, m: Sample, count: usize, done: usize) -> bool
    ensures { T result → (m.0 % 14 ≡ 0) × (at + 8 ≤ bytes) × (done + 14 ≤ count) }
{
    14 <= count && done <= count - 14 && 8 <= bytes && at <= bytes - 8 && m.starts_frame()
}

// The 14 samples of a whole frame: its header is read once.
pub fn decode_frame(
    frame: &[u8],
    coefficients: &[i16; 16],
    ctx: AdpcmContext,
    out: &mut [f32],
) -> AdpcmContext
    requires { (length frame.now ≡ 8) × (length out.old ≡ 14) }
    ensures { Decodes (run_of frame.now 0 14 coefficients.now ctx) out.old out.new 14 result }
{
    let header = u16::from(frame[0]);
    let scale = header % 16;
    let (c, d) = pair(coefficients, header);
    let mut x = AdpcmContext {
        pred_scale: header,
        ..ctx
    };
    for i in 0..7 {
        let b = frame[i + 1];
        let high = step(b / 16, scale, c, d, x.history0, x.history1);
        let low = step(b % 16, scale, c, d, high, x.history0);
        out[2 * i] = f32::from(high);
        out[2 * i + 1] = f32::from(low);
        x = AdpcmContext {
            pred_scale: header,
            history0: low,
            history1: high,
        };
    }
    x
}
