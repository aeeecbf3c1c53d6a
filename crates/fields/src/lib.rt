// Fields of a block of bytes, little-endian: readers, sections and writers. A field that reaches past the end reads 0.
#![tactic(auto)]

mod numbers;

ghost use Rattle.std.specs.Prelude.{◌≡◌, ◌+◌, ◌≤◌, ◌<◌, leb, length};
ghost use Rattle.std.specs.Float.Ieee as Ieee;
ghost use Rattle.std.specs.Float.{binary32};
ghost use Rattle.std.proofs.Common.{to_z};
ghost use Rattle.std.specs.Int.{w32};
ghost use Rattle.fields.specs.Fields.{le, field_at, flag_at, section_of, rest_of, bytes_of};
ghost use Rattle.rows.specs.Rows.{put};

pub use numbers::positive;
use rows::copy_in;

// Whether w bytes from o on are inside n.
pub fn inside(n: usize, o: usize, w: usize) -> bool
    ensures { result ≡ leb (o + w) n }
{
    w <= n && o <= n - w
}

// The W bytes from o on; zeros where they reach past the end.
fn bytes_at<const W: usize>(d: &[u8], o: usize) -> [u8; W]
    ensures { le W result 0 ≡ field_at W d.now o }
{
    let mut bytes = [0; W];
    if inside(d.len(), o, W) {
        bytes.copy_from_slice(&d[o..o + W]);
    }
    bytes
}

pub fn u16_at(d: &[u8], o: usize) -> u16
    ensures { result ≡ field_at 2 d.now o }
{
    u16::from_le_bytes(bytes_at(d, o))
}

pub fn u32_at(d: &[u8], o: usize) -> u32
    ensures { result ≡ field_at 4 d.now o }
{
    u32::from_le_bytes(bytes_at(d, o))
}

pub fn i32_at(d: &[u8], o: usize) -> i32
    ensures { result ≡ to_z w32 (field_at 4 d.now o) }
{
    u32_at(d, o).cast_signed()
}

pub fn u64_at(d: &[u8], o: usize) -> u64
    ensures { result ≡ field_at 8 d.now o }
{
    u64::from_le_bytes(bytes_at(d, o))
}

pub fn f32_at(d: &[u8], o: usize) -> f32
    ensures { result ≡ Ieee.of_bits binary32 (field_at 4 d.now o) }
{
    floats::from_bits(u32_at(d, o))
}

pub fn byte_at(d: &[u8], o: usize) -> u8
    ensures { result ≡ field_at 1 d.now o }
{
    if inside(d.len(), o, 1) { d[o] } else { 0 }
}

// Whether the byte at o is not 0.
pub fn flag_at(d: &[u8], o: usize) -> bool
    ensures { result ≡ flag_at d.now o }
{
    byte_at(d, o) != 0
}

// A part of the input; empty where it reaches past the end.
pub fn section(input: &[u8], at: usize, size: usize) -> &[u8]
    ensures { result.now ≡ section_of input.now at size }
{
    if inside(input.len(), at, size) {
        &input[at..at + size]
    } else {
        &input[..0]
    }
}

// The input from a place on; empty past the end.
pub fn rest(input: &[u8], at: usize) -> &[u8]
    ensures { result.now ≡ rest_of input.now at }
{
    &input[at.min(input.len())..]
}

pub fn put_byte(d: &mut [u8], o: usize, v: u8)
    requires { o + 1 ≤ length d.old }
    ensures { d.new ≡ put d.old o (bytes_of 1 v) }
{
    copy_in(d, o, &[v]);
}

pub fn put_u16(d: &mut [u8], o: usize, v: u16)
    requires { o + 2 ≤ length d.old }
    ensures { d.new ≡ put d.old o (bytes_of 2 v) }
{
    copy_in(d, o, &u16::to_le_bytes(v));
}

pub fn put_u32(d: &mut [u8], o: usize, v: u32)
    requires { o + 4 ≤ length d.old }
    ensures { d.new ≡ put d.old o (bytes_of 4 v) }
{
    copy_in(d, o, &u32::to_le_bytes(v));
}

pub fn put_u64(d: &mut [u8], o: usize, v: u64)
    requires { o + 8 ≤ length d.old }
    ensures { d.new ≡ put d.old o (bytes_of 8 v) }
{
    copy_in(d, o, &u64::to_le_bytes(v));
}
