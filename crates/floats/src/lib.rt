// Rust's operations on f32 that Rattle lacks, each for every float and under its Rust name. All NaNs count as one.
#![tactic(auto)]

ghost use Rattle.std.specs.Prelude.{◌≡◌};
ghost use Rattle.std.specs.Float.Ieee as Ieee;
ghost use Rattle.std.specs.Float.{binary32};
ghost use Rattle.std.specs.Float.Ieee.Scale.{finite};
ghost use Rattle.floats.specs.Defs.{floor_of, min_of, clamp_of, ratio_of};

// Rust's `f32::from_bits(b)`: every NaN pattern gives the NaN.
pub fn from_bits(b: u32) -> f32
    ensures { result ≡ Ieee.of_bits binary32 b }
{
    std::num::f32_from_bits_with_nan(b)
}

// Rust's `x.to_bits()`: a NaN gives 0x7fc00000.
pub fn to_bits(x: f32) -> u32
    ensures { result ≡ Ieee.to_bits binary32 x }
{
    std::num::f32_to_bits_with_nan(x)
}

// Rust's `x as usize`: toward zero, the nearest end where x is out of range, and 0 for a NaN.
pub fn as_usize(x: f32) -> usize
    ensures { result ≡ Ieee.to_unsigned 64 x }
{
    std::num::saturating_f32_to_usize(x)
}

// Rust's `x.floor()`.
pub fn floor(x: f32) -> f32
    ensures { result ≡ floor_of x }
{
    x.floor()
}

// Rust's `a.min(b)`: of a NaN and another, the other; of two equal zeros, a.
pub fn min(a: f32, b: f32) -> f32
    ensures { result ≡ min_of a b }
{
    if a.is_nan() || b < a { b } else { a }
}

// Rust's `x.clamp(low, high)`: a NaN stays. Where low is above high, Rust panics and this does not.
pub fn clamp(x: f32, low: f32, high: f32) -> f32
    ensures { result ≡ clamp_of low high x }
{
    if x < low {
        low
    } else if x > high {
        high
    } else {
        x
    }
}

// Rust's `x.is_finite()`.
pub fn is_finite(x: f32) -> bool
    ensures { result ≡ finite x }
{
    x.is_finite()
}

// A voice's ratio: Rust's `if x.is_finite() { x.clamp(0.0, 16.0) } else { 0.0 }`.
pub fn clamp_ratio(x: f32) -> f32
    ensures { result ≡ ratio_of x }
{
    if is_finite(x) {
        clamp(x, 0.0, 16.0)
    } else {
        0.0
    }
}
