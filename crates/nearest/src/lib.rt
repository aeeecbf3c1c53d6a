// The nibble whose decoded sample is nearest to a given one. Samples are in offset binary here, -32768 to 32767 as 0 to 65535, and the
// sixteen nibbles are counted by rank, from -8 up, so that all sums are of natural numbers.
#![tactic(auto)]

ghost use Rattle.std.specs.Prelude.{◌≡◌, ◌≤◌, ◌<◌, ◌^◌, cond, eqb};
ghost use Rattle.std.proofs.Math.IntN.{sub_ℕ};
ghost use Rattle.nearest.specs.Nearest.{Chosen};
ghost use Rattle.nearest.specs.Levels.{offset_binary, prediction_of, level_at, reach_of, NearestRank};

// The sum that stands for the sample -32768, but for the eight steps from the nibble -8 to 0: 2^21 - 32768.
const ORIGIN: u32 = 2064384;

// A sample in offset binary.
fn offset_binary(x: i16) -> u32
    ensures { (result ≡ offset_binary x) × (result ≤ 65535) }
{
    (i64::from(x) + 32768) as u32
}

// And back.
fn from_offset_binary(y: u32) -> i16
    requires { y ≤ 65535 }
    ensures { result ≡ sub_ℕ y 32768 }
{
    ((y as i32) - 32768) as i16
}

// What a pair and the last two samples add to every nibble, counted from -2^21 up.
fn prediction(c: i16, d: i16, h0: i16, h1: i16) -> u32
    ensures { (result ≡ prediction_of c d h0 h1) × (result < 2 ^ 22) }
{
    let a = i64::from(c) * i64::from(h0);
    let b = i64::from(d) * i64::from(h1);
    let z = a + b + 0x1_0000_0400;
    ((z as u64) / 2048) as u32
}

// How far the samples of two neighbouring nibbles are apart.
fn step_size(s: u16) -> u32
    requires { s < 16 }
    ensures { (result ≡ 2 ^ s) × (1 ≤ result) × (result ≤ 32768) }
{
    1u32 << s
}

// The sample of the nibble of rank r.
fn level(predicted: u32, s: u16, r: u32) -> u32
    requires { (predicted < 2 ^ 22) × (s < 16) × (r < 16) }
    ensures { (result ≡ level_at (2 ^ s) predicted r) × (result ≤ 65535) }
{
    let p = step_size(s);
    let x = r * p + predicted;
    let low = 8 * p + ORIGIN;
    x.saturating_sub(low).min(65535)
}

// The first rank whose sample, unclamped, reaches t; 16 if none does.
fn first_reaching(t: u32, predicted: u32, s: u16) -> u32
    requires { (t ≤ 65535) × (predicted < 2 ^ 22) × (s < 16) }
    ensures { result ≡ reach_of (2 ^ s) predicted t }
{
    let p = step_size(s);
    let need = t + 8 * p + ORIGIN;
    if need <= predicted {
        return 0;
    }
    ((need - predicted + (p - 1)) >> s).min(16)
}

// A rank, and the sample of its nibble.
#[derive(Clone, Copy)]
struct Near {
    rank: u32,
    level: u32,
}

// The rank low with its sample y; or rank 0 where y is the lowest sample, since then every lower nibble has the same one.
fn lowest_alike(y: u32, low: u32) -> Near
    ensures { (result.rank ≡ cond (eqb y 0) 0 low) × (result.level ≡ y) }
{
    let rank = if y == 0 { 0 } else { low };
    Near { rank, level: y }
}

// The rank whose sample is nearest to t, the lowest of several, and that sample.
fn nearest_rank(t: u32, predicted: u32, s: u16) -> Near
    requires { (t ≤ 65535) × (predicted < 2 ^ 22) × (s < 16) }
    ensures { NearestRank (2 ^ s) predicted t result.rank result.level }
{
    let u = first_reaching(t, predicted, s);
    if u == 0 {
        let x = level(predicted, s, 0);
        return Near { rank: 0, level: x };
    }
    let low = u - 1;
    let y = level(predicted, s, low);
    if u == 16 {
        return lowest_alike(y, low);
    }
    let z = level(predicted, s, u);
    if z - t < t - y {
        return Near { rank: u, level: z };
    }
    lowest_alike(y, low)
}

// A nibble, the sample that it decodes to, and how far that is from the sample it was chosen for.
#[derive(Clone, Copy)]
pub struct Choice {
    pub nibble: u8,
    pub sample: i16,
    pub difference: u32,
}

// The nearest nibble for the sample x with the scale s and the pair c, d, after the samples h0 and h1, the later first.
pub fn choose_nibble(x: i16, s: u16, c: i16, d: i16, h0: i16, h1: i16) -> Choice
    requires { s < 16 }
    ensures { Chosen x s c d h0 h1 result.nibble result.sample result.difference }
{
    let t = offset_binary(x);
    let predicted = prediction(c, d, h0, h1);
    let near = nearest_rank(t, predicted, s);
    let nibble = ((near.rank + 8) % 16) as u8;
    Choice {
        nibble,
        sample: from_offset_binary(near.level),
        difference: t.abs_diff(near.level),
    }
}
