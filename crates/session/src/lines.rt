// The lines that the session program prints, each written at the front of a lent slice. Each function gives the line's length.
ghost use Rattle.std.specs.Prelude.{◌≡◌, ◌++◌, ◌+◌, ◌*◌, ◌/◌, ◌≤◌, ◌<◌, length};
ghost use Rattle.fields.specs.Fields.{le};
ghost use Rattle.session.specs.Text.{text, append, decimal_of};
ghost use Rattle.session.specs.Lines.{float_text, floats_text, word_text, words_text, frames_line, reply_line, refused_line};

use crate::digits::{put_byte, put_bytes, put_decimal, put_hex};

// A line's first word and its number.
fn put_head(out: &mut [u8], word: &[u8], n: u32) -> usize
    requires { length word.now + 5 ≤ length out.old }
    ensures { text out.new result ≡ append (text out.old 0) (word.now ++ decimal_of n) }
{
    let at = put_bytes(out, 0, word);
    put_decimal(out, at, n)
}

// A space and the float's bits.
fn put_float(out: &mut [u8], at: usize, x: f32) -> usize
    requires { at + 9 ≤ length out.old }
    ensures { text out.new result ≡ append (text out.old at) (float_text x) }
{
    let digits = put_byte(out, at, b' ');
    put_hex(out, digits, 8, floats::to_bits(x))
}

fn put_floats(out: &mut [u8], at: usize, s: &[f32]) -> usize
    requires { at + length s.now * 9 ≤ length out.old }
    ensures { text out.new result ≡ append (text out.old at) (floats_text s.now) }
{
    let mut end = at;
    for x in s {
        end = put_float(out, end, *x);
    }
    end
}

// A render's line.
pub fn frames_line(frames: &[f32], out: &mut [u8]) -> usize
    requires { (length frames.now ≤ 512) × (5120 ≤ length out.old) }
    ensures result_after { text out.new result ≡ append (text out.old 0) (frames_line frames.now) }
    ensures upper_bound { result ≤ length out.new }
{
    let head = put_head(out, b"frames ", (frames.len() / 2) as u32);
    let end = put_floats(out, head, frames);
    put_byte(out, end, b'\n')
}

// A space, the word's offset and the word, where that is not 0.
fn put_word(out: &mut [u8], at: usize, offset: u32, v: u32) -> usize
    requires { at + 14 ≤ length out.old }
    ensures { text out.new result ≡ append (text out.old at) (word_text offset v) }
{
    if v == 0 {
        return at;
    }
    let first = put_byte(out, at, b' ');
    let colon = put_hex(out, first, 4, offset);
    let second = put_byte(out, colon, b':');
    put_hex(out, second, 8, v)
}

// A word of the reply; its bytes past the end are 0.
fn word_at(d: &[u8], at: usize) -> u32
    requires { at ≤ length d.now }
    ensures { result ≡ le 4 d.now at }
{
    u32::from_le_bytes([
        fields::byte_at(d, at),
        fields::byte_at(d, at + 1),
        fields::byte_at(d, at + 2),
        fields::byte_at(d, at + 3),
    ])
}

fn put_words(out: &mut [u8], at: usize, d: &[u8]) -> usize
    requires d_len_bound { length d.now ≤ 65536 }
    requires d_in_bounds { at + (length d.now + 3) / 4 * 14 ≤ length out.old }
    ensures { text out.new result ≡ append (text out.old at) (words_text d.now) }
{
    let mut end = at;
    for k in 0..d.len().div_ceil(4) {
        end = put_word(out, end, (4 * k) as u32, word_at(d, 4 * k));
    }
    end
}

// An update's line.
pub fn reply_line(reply: &[u8], out: &mut [u8]) -> usize
    requires { (length reply.now ≤ 16384) × (65536 ≤ length out.old) }
    ensures result_after { text out.new result ≡ append (text out.old 0) (reply_line reply.now) }
    ensures upper_bound { result ≤ length out.new }
{
    let head = put_head(out, b"reply ", reply.len() as u32);
    let end = put_words(out, head, reply);
    put_byte(out, end, b'\n')
}

// A refusal's line.
pub fn refused_line(number: u32, out: &mut [u8]) -> usize
    requires { 64 ≤ length out.old }
    ensures result_after { text out.new result ≡ append (text out.old 0) (refused_line number) }
    ensures upper_bound { result ≤ length out.new }
{
    let end = put_head(out, b"refused ", number);
    put_byte(out, end, b'\n')
}
