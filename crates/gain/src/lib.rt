// mixer.rs `ramp` and `mix_into`: a gain that moves in equal steps over a row of samples, and a send into a row of the mix buffers.
#![tactic(auto)]

ghost use Rattle.std.specs.Prelude.{◌≡◌, ◌^◌, ◌<◌, ◌≤◌, true, ◌&&◌, length};
ghost use Rattle.std.specs.Float.{binary32};
ghost use Rattle.std.specs.Float.Ieee.{eq, add};
ghost use Rattle.gain.specs.Gain.{step_of, ramped, scaled, mixed, level, ramp_of, mix_into};

// Whether both gains are v.
fn both(from: f32, to: f32, v: f32) -> bool
    ensures { result ≡ (eq from v && eq to v) }
{
    from == v && to == v
}

// How far the gain moves from one of n samples to the next. The Rust divides by `n.max(1)`: an empty row has no sample to step to, so n
// itself serves.
fn step_of(from: f32, to: f32, n: u32) -> f32
    ensures { result ≡ step_of from to n }
{
    (to - from) / std::num::nearest_u32_to_f32(n)
}

// Each sample times the gain, which begins at `from` and grows by `step` after each.
fn ramp_by(s: &mut [f32], from: f32, step: f32)
    ensures { s.new ≡ ramped step from s.old }
{
    let mut v = from;
    for x in s.iter_mut() {
        *x = *x * v;
        v = v + step;
    }
}

// Each sample times one gain. No turn waits for the one before it.
fn ramp_level(s: &mut [f32], gain: f32)
    ensures { s.new ≡ scaled gain s.old }
{
    for x in s.iter_mut() {
        *x = *x * gain;
    }
}

// Each sample times a gain that goes from `from` to `to`; both gains 1 change nothing.
pub fn ramp(s: &mut [f32], from: f32, to: f32)
    requires { length s.old < 2 ^ 32 }
    ensures { s.new ≡ ramp_of from to s.old }
{
    if both(from, to, 1.0) {
        return;
    }
    let step = step_of(from, to, s.len() as u32);
    if steady(from, step) {
        ramp_level(s, from);
    } else {
        ramp_by(s, from, step);
    }
}

// The samples of s, times a gain that begins at `from` and grows by `step` after each, added to those of d.
fn mix_moving(d: &mut [f32], s: &[f32], from: f32, step: f32)
    requires { length d.old ≤ length s.now }
    ensures { d.new ≡ mixed step from d.old s.now }
{
    let mut v = from;
    for (i, x) in d.iter_mut().enumerate() {
        *x = *x + s[i] * v;
        v = v + step;
    }
}

// The samples of s, all times v, added to those of d. No turn waits for the one before it.
fn mix_level(d: &mut [f32], s: &[f32], v: f32)
    requires { length d.old ≤ length s.now }
    ensures { d.new ≡ level v d.old s.now }
{
    for (i, x) in d.iter_mut().enumerate() {
        *x = *x + s[i] * v;
    }
}

// Whether the step is known to leave the gain as it is. A zero gain is left out: -0 and 0 compare equal and are two gains.
fn steady(from: f32, step: f32) -> bool
    ensures { result ≡ true → add binary32 from step ≡ from }
{
    from != 0.0 && from + step == from
}

// What `mix_moving` does, faster where the gain does not move.
fn mix_row(d: &mut [f32], s: &[f32], from: f32, step: f32)
    requires { length d.old ≤ length s.now }
    ensures { d.new ≡ mixed step from d.old s.now }
{
    if steady(from, step) {
        mix_level(d, s, from);
    } else {
        mix_moving(d, s, from, step);
    }
}

// The n samples of src, times a gain that goes from `from` to `to`, added to row `buffer` of the mix buffers. Both gains 0 add nothing;
// a row that is not inside the buffers gets nothing.
pub fn mix_into(buffers: &mut [f32], buffer: usize, n: usize, src: &[f32], from: f32, to: f32)
    requires { (buffer < 2 ^ 24) × (n < 2 ^ 24) × (n ≤ length src.now) }
    ensures { buffers.new ≡ mix_into buffers.old buffer n src.now from to }
{
    if both(from, to, 0.0) {
        return;
    }
    let at = buffer * n;
    let end = at + n;
    if end > buffers.len() {
        return;
    }
    let step = step_of(from, to, n as u32);
    mix_row(&mut buffers[at..end], src, from, step);
}
