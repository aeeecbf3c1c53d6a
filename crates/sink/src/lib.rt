// mixer.rs `write_sink`, for the inputs of a device sink: what it makes of the mix buffers.
#![tactic(auto)]

mod surround;

ghost use Rattle.std.specs.Prelude.{◌≡◌, ◌++◌, ◌+◌, ◌*◌, ◌^◌, ◌≤◌, ◌<◌, length, drop, get_or, set};
ghost use Rattle.std.specs.Float.{nan};
ghost use Rattle.sink.specs.Sink.{Silent, row_or, to_unit, frames, sink_of};

use surround::{Six, surround};

// The factors of a sink that gives none.
const DOWNMIX: [f32; 4] = [1.0, 0.707, 0.251, 0.707];

// The Rust's `channel(k).unwrap_or(&silent)`: row offset + input of the mix buffers where it is inside them, else the row of silence.
fn channel<'a>(
    buffers: &'a [f32],
    silent: &'a [f32],
    offset: usize,
    input: u32,
    n: usize,
) -> &'a [f32]
    requires { (offset < 2 ^ 16) × (n < 2 ^ 24) × (n ≤ length silent.now) }
    ensures { result.now ≡ row_or buffers.now silent.now (offset + input) n }
{
    let b = offset + input as usize;
    let at = b * n;
    let end = at + n;
    if end <= buffers.len() {
        &buffers[at..end]
    } else {
        &silent[..n]
    }
}

// The Rust's `clamp`: a sample as a frame has it, over 32768 and in [-1, 1]. A NaN stays.
fn to_unit(s: f32) -> f32
    ensures { result ≡ to_unit s }
{
    floats::clamp(s * (1.0 / 32768.0), -1.0, 1.0)
}

// Frame i: a left and a right sample.
fn put_frame(out: &mut [f32], i: usize, l: f32, r: f32)
    requires { 2 * i + 2 ≤ length out.old }
    ensures { out.new ≡ set (set out.old (2 * i) (to_unit l)) (2 * i + 1) (to_unit r) }
{
    out[2 * i] = to_unit(l);
    out[2 * i + 1] = to_unit(r);
}

// n frames of two rows.
fn stereo(out: &mut [f32], l: &[f32], r: &[f32], n: usize)
    requires { (2 * n ≤ length out.old) × (n ≤ length l.now) × (n ≤ length r.now) }
    ensures { out.new ≡ frames (λ i. get_or l.now i nan) (λ i. get_or r.now i nan) n ++ drop (2 * n) out.old }
{
    for i in 0..n {
        put_frame(out, i, l[i], r[i]);
    }
}

// n frames of a sink with `count` inputs, left and right by turns; what lies beyond them in `out` stays. `offset` is that of mix 0's
// buffers, and `silent` has n zeros.
pub fn write_sink<'a>(
    out: &mut [f32],
    buffers: &'a [f32],
    silent: &'a [f32],
    n: usize,
    offset: usize,
    inputs: [u32; 6],
    count: usize,
    downmix: Option<[f32; 4]>,
)
    requires fact_1 { (2 * n ≤ length out.old) × (n < 2 ^ 24) × (offset < 2 ^ 16) }
    requires fact_2 { Silent n silent.now }
    ensures { out.new ≡ sink_of buffers.now n offset inputs count downmix ++ drop (2 * n) out.old }
{
    if count == 0 {
        stereo(out, silent, silent, n);
        return;
    }
    let left = channel(buffers, silent, offset, inputs[0], n);
    if count == 1 {
        stereo(out, left, left, n);
        return;
    }
    let right = channel(buffers, silent, offset, inputs[1], n);
    if count < 6 {
        stereo(out, left, right, n);
        return;
    }
    let rows = Six {
        left,
        right,
        centre: channel(buffers, silent, offset, inputs[2], n),
        low: channel(buffers, silent, offset, inputs[3], n),
        back_left: channel(buffers, silent, offset, inputs[4], n),
        back_right: channel(buffers, silent, offset, inputs[5], n),
        n,
    };
    surround(out, &rows, downmix.unwrap_or(DOWNMIX));
}
