// A header's bytes.
ghost use Rattle.std.specs.Prelude.{◌≡◌, ◌+◌, ◌≤◌, length};
ghost use Rattle.rows.specs.Rows.{put};
ghost use Rattle.dsp_header.specs.Header.{header_size, coefficient_bytes, context_bytes, three_bytes, front_bytes, back_bytes, header_bytes};

use crate::DspHeader;
use adpcm::AdpcmContext;
use rows::{copy_in, fill};

// Sixteen signed numbers, in place of the bytes from o on.
fn put_coefficients(c: [i16; 16], out: &mut [u8], o: usize)
    requires { o + 32 ≤ length out.old }
    ensures { out.new ≡ put out.old o (coefficient_bytes c) }
{
    for k in 0..16 {
        copy_in(out, o + k * 2, &c[k].to_be_bytes());
    }
}

// A frame's header and the two samples before it, in place of the bytes from o on.
fn put_context(x: AdpcmContext, out: &mut [u8], o: usize)
    requires { o + 6 ≤ length out.old }
    ensures { out.new ≡ put out.old o (context_bytes x) }
{
    copy_in(out, o, &x.pred_scale.to_be_bytes());
    copy_in(out, o + 2, &x.history0.to_be_bytes());
    copy_in(out, o + 4, &x.history1.to_be_bytes());
}

// Three numbers of four bytes, in place of those from o on.
fn put_three(a: u32, b: u32, c: u32, out: &mut [u8], o: usize)
    requires { o + 12 ≤ length out.old }
    ensures { out.new ≡ put out.old o (three_bytes a b c) }
{
    copy_in(out, o, &a.to_be_bytes());
    copy_in(out, o + 4, &b.to_be_bytes());
    copy_in(out, o + 8, &c.to_be_bytes());
}

// The values up to the coefficients, in place of the first bytes.
fn put_front(h: DspHeader, out: &mut [u8])
    requires { header_size ≤ length out.old }
    ensures { out.new ≡ put out.old 0 (front_bytes h) }
{
    put_three(h.samples, h.nibbles, h.rate, out, 0x00);
    copy_in(out, 0x0c, &h.loop_flag.to_be_bytes());
    copy_in(out, 0x0e, &h.format.to_be_bytes());
    put_three(h.loop_start, h.loop_end, h.address, out, 0x10);
}

// The values from the coefficients on, and zeros for padding, in place of the bytes behind the others.
fn put_back(h: DspHeader, out: &mut [u8])
    requires { header_size ≤ length out.old }
    ensures { out.new ≡ put out.old 0x1c (back_bytes h) }
{
    put_coefficients(h.coefficients, out, 0x1c);
    copy_in(out, 0x3c, &h.gain.to_be_bytes());
    put_context(h.start_context, out, 0x3e);
    put_context(h.loop_context, out, 0x44);
    fill(out, 0x4a, 22, 0);
}

// A header, with zeros for padding, in place of the first bytes.
pub fn put_header(h: DspHeader, out: &mut [u8])
    requires { header_size ≤ length out.old }
    ensures { out.new ≡ put out.old 0 (header_bytes h) }
{
    put_front(h, out);
    put_back(h, out);
}
