ghost use Rattle.std.specs.Prelude.{◌≡◌, ◌+◌, ◌<◌, ◌^◌, pos, ◌*ℤ◌};
ghost use Rattle.adpcm.specs.Step.{signed4, step_of};

// Four bits as a signed number.
fn signed(v: u8) -> i64
    requires { v < 16 }
    ensures { result ≡ signed4 v }
{
    let x = i64::from(v);
    if v < 8 { x } else { x - 16 }
}

// The nibble v, scaled: v × 2^(11+s).
fn scaled(v: u8, s: u16) -> i64
    requires { (v < 16) × (s < 16) }
    ensures { result ≡ signed4 v *ℤ pos (2 ^ (11 + s)) }
{
    let p = 1u64 << (11 + s);
    signed(v) * (p as i64)
}

// One sample: the nibble v at scale s, the predictor's pair c, d, and the last two samples h0, h1, the later first.
pub fn step(v: u8, s: u16, c: i16, d: i16, h0: i16, h1: i16) -> i16
    requires { (v < 16) × (s < 16) }
    ensures { result ≡ step_of v s c d h0 h1 }
{
    let x = scaled(v, s);
    let y = i64::from(c) * i64::from(h0);
    let z = i64::from(d) * i64::from(h1);
    let t = x + y + z + 1024;
    (t >> 11).clamp(-32768, 32767) as i16
}
