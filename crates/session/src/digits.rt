// Numbers as digits, and bytes, written into a lent slice from a place on. Each gives the place behind what it wrote.
ghost use Rattle.std.specs.Prelude.{◌≡◌, [], ◌∷◌, ◌+◌, ◌≤◌, ◌<◌, length};
ghost use Rattle.rows.specs.Rows.{put};
ghost use Rattle.session.specs.Text.{text, append, digit_of, digits_of, hex_of, places_of, decimal_of};

// The ASCII code of a digit.
fn digit(d: u32) -> u8
    requires { d < 16 }
    ensures { result ≡ digit_of d }
{
    if d < 10 { 48 + d as u8 } else { 87 + d as u8 }
}

// The last k digits of v.
fn put_digits(out: &mut [u8], at: usize, base: u32, k: usize, v: u32)
    requires base_nonzero { (0 < base) × (base ≤ 16) }
    requires k_in_bounds { at + k ≤ length out.old }
    ensures { out.new ≡ put out.old at (digits_of base k v) }
{
    let mut rest = v;
    for i in (0..k).rev() {
        out[at + i] = digit(rest % base);
        rest /= base;
    }
}

// k hexadecimal digits.
pub fn put_hex(out: &mut [u8], at: usize, k: usize, v: u32) -> usize
    requires { at + k ≤ length out.old }
    ensures { text out.new result ≡ append (text out.old at) (hex_of k v) }
{
    put_digits(out, at, 16, k, v);
    at + k
}

// How many decimal digits a number below 100,000 has.
#[tactic(auto, unfolding(crate::specs::Text::places_of))]
fn places(v: u32) -> usize
    ensures { (result ≡ places_of v) × (result ≤ 5) }
{
    match v {
        0..=9 => 1,
        10..=99 => 2,
        100..=999 => 3,
        1000..=9999 => 4,
        _ => 5,
    }
}

// A number below 100,000.
pub fn put_decimal(out: &mut [u8], at: usize, v: u32) -> usize
    requires { at + 5 ≤ length out.old }
    ensures { text out.new result ≡ append (text out.old at) (decimal_of v) }
{
    let k = places(v);
    put_digits(out, at, 10, k, v);
    at + k
}

pub fn put_byte(out: &mut [u8], at: usize, b: u8) -> usize
    requires { at + 1 ≤ length out.old }
    ensures { text out.new result ≡ append (text out.old at) (b ∷ []) }
{
    out[at] = b;
    at + 1
}

pub fn put_bytes(out: &mut [u8], at: usize, bytes: &[u8]) -> usize
    requires { at + length bytes.now ≤ length out.old }
    ensures { text out.new result ≡ append (text out.old at) bytes.now }
{
    let end = at + bytes.len();
    out[at..end].copy_from_slice(bytes);
    end
}
