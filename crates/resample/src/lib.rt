// dsp.rs's resampler: a cubic through four neighbours, to the bit, in Rust's order of operations.
#![tactic(auto)]

ghost use Rattle.std.specs.Prelude.{◌≡◌, ◌^◌, ◌<◌, ◌≤◌, min, T, ◌++◌, length, drop, pos};
ghost use Rattle.std.specs.Float.{binary32};
ghost use Rattle.std.specs.Float.Ieee.{of_int, to_unsigned};
ghost use Rattle.floats.specs.Defs.{one, min_of};
ghost use Rattle.resample.specs.Defs.{pos_at, next_of, needed_of, cubic, sample_from, index_at, samples, fourth, resampled};
ghost use Rattle.resample.specs.InStep.{InStep};

// How many samples a resampler keeps from one run to the next.
pub const HISTORY: usize = 3;

// The bits of 1.0.
const ONE_BITS: u32 = 0x3f80_0000;

// Fills the first count of out from input, and gives the next fraction.
pub fn resample(input: &[f32], out: &mut [f32], count: u32, ratio: f32, fraction: f32) -> f32
    requires points { (3 ≤ length input.now) × (length input.now < 2 ^ 32) }
    requires room { count ≤ length out.old }
    ensures { (result ≡ next_of fraction ratio count)
        × (out.new ≡ resampled input.now ratio fraction count ++ drop count out.old) }
{
    if input.len() < 4 {
        let (a, b, c) = (input[0], input[1], input[2]);
        let points = [a, b, c, fourth(a, b, c)];
        fill(&points, out, count, ratio, fraction)
    } else {
        fill(input, out, count, ratio, fraction)
    }
}

// How many samples of the input a run of count outputs goes past.
pub fn needed(fraction: f32, ratio: f32, count: u32) -> usize
    ensures { result ≡ needed_of fraction ratio count }
{
    floats::as_usize(place(fraction, ratio, count))
}

// The point after three that have no fourth: one step on along the line through the second and the third.
fn fourth(a: f32, b: f32, c: f32) -> f32
    ensures { result ≡ fourth a b c }
{
    2.0 * c - b
}

// The outputs from four points or more, and the next fraction.
fn fill(input: &[f32], out: &mut [f32], count: u32, ratio: f32, fraction: f32) -> f32
    requires points { (4 ≤ length input.now) × (length input.now < 2 ^ 32) }
    requires room { count ≤ length out.old }
    ensures { (result ≡ next_of fraction ratio count)
        × (out.new ≡ samples input.now ratio fraction count ++ drop count out.old) }
{
    if in_step(input.len(), count, ratio, fraction) {
        fill_in_step(input, out, count, ratio, fraction)
    } else {
        fill_between(input, out, count, ratio, fraction)
    }
}

// Whether every place is its output's own number: ratio 1, fraction 0, and points enough.
fn in_step(points: usize, count: u32, ratio: f32, fraction: f32) -> bool
    ensures { T result → InStep points count ratio fraction }
{
    floats::to_bits(ratio) == ONE_BITS
        && floats::to_bits(fraction) == 0
        && count <= 0x100_0000
        && count as usize + 3 <= points
}

// The loop where every place is its output's own number: output k is the cubic through points k to k + 3 at 0.
fn fill_in_step(input: &[f32], out: &mut [f32], count: u32, ratio: f32, fraction: f32) -> f32
    requires in_step { InStep (length input.now) count ratio fraction }
    requires room { count ≤ length out.old }
    ensures { (result ≡ next_of fraction ratio count)
        × (out.new ≡ samples input.now ratio fraction count ++ drop count out.old) }
{
    for k in 0..count as usize {
        out[k] = interpolate(input[k], input[k + 1], input[k + 2], input[k + 3], 0.0);
    }
    0.0
}

// The loop for any places. Each place's whole part is looked for a ratio further than the last one's.
fn fill_between(input: &[f32], out: &mut [f32], count: u32, ratio: f32, fraction: f32) -> f32
    requires points { (4 ≤ length input.now) × (length input.now < 2 ^ 32) }
    requires room { count ≤ length out.old }
    ensures { (result ≡ next_of fraction ratio count)
        × (out.new ≡ samples input.now ratio fraction count ++ drop count out.old) }
{
    let stride = floats::as_usize(ratio);
    let mut near = 0usize;
    for k in 0..count {
        let pos = place(fraction, ratio, k);
        let whole = whole_near(pos, near);
        out[k as usize] = sample(input, pos, whole);
        near = whole.wrapping_add(stride);
    }
    let end = place(fraction, ratio, count);
    end - floats::floor(end)
}

// The output at a place with this whole part.
fn sample(input: &[f32], pos: f32, whole: usize) -> f32
    requires { (4 ≤ length input.now) × (length input.now < 2 ^ 32) × (whole ≡ to_unsigned 64 pos) }
    ensures { result ≡ sample_from input.now pos (index_at input.now pos) }
{
    let i = whole.min(input.len() - 4);
    let t = at_most_one(pos - as_f32(i as u32));
    interpolate(input[i], input[i + 1], input[i + 2], input[i + 3], t)
}

// The place of output k in the input.
fn place(fraction: f32, ratio: f32, k: u32) -> f32
    ensures { result ≡ pos_at fraction ratio k }
{
    fraction + ratio * as_f32(k)
}

// Rust's `x as usize`, quick where that is near or near + 1.
fn whole_near(x: f32, near: usize) -> usize
    ensures { result ≡ to_unsigned 64 x }
{
    if near < 0xff_ffff {
        let low = (near as u32) as f32;
        if low <= x {
            let high = low + 1.0;
            if x < high {
                return near;
            }
            if x < high + 1.0 {
                return near + 1;
            }
        }
    }
    floats::as_usize(x)
}

// Rust's `n as f32`, quick where that is exact.
fn as_f32(n: u32) -> f32
    ensures { result ≡ of_int binary32 (pos n) }
{
    if n <= 0x100_0000 {
        n as f32
    } else {
        std::num::nearest_u32_to_f32(n)
    }
}

// Rust's `x.min(1.0)`.
fn at_most_one(x: f32) -> f32
    ensures { result ≡ min_of x one }
{
    if x <= 1.0 { x } else { 1.0 }
}

// The cubic through p1 and p2 at t.
fn interpolate(p0: f32, p1: f32, p2: f32, p3: f32, t: f32) -> f32
    ensures { result ≡ cubic p0 p1 p2 p3 t }
{
    p1 + 0.5
        * t
        * (p2 - p0 + t * (2.0 * p0 - 5.0 * p1 + 4.0 * p2 - p3 + t * (3.0 * (p1 - p2) + p3 - p0)))
}
