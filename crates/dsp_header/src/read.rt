// A header's values from a file's bytes.
ghost use Rattle.std.specs.Prelude.{◌≡◌, ◌+◌, ◌≤◌, eqb, length};
ghost use Rattle.std.specs.List.{list_all};
ghost use Rattle.dsp_header.specs.Big.{big};
ghost use Rattle.dsp_header.specs.Header.{header_size, coefficients_at, context_at, padding_of, header_of};

use crate::DspHeader;
use crate::big::{long, word};
use adpcm::AdpcmContext;

// Sixteen signed numbers from o on.
fn coefficients(d: &[u8], o: usize) -> [i16; 16]
    requires { o + 32 ≤ length d.now }
    ensures { result ≡ coefficients_at d.now o }
{
    let mut c = [0; 16];
    for k in 0..16 {
        c[k] = word(d, o + k * 2).cast_signed();
    }
    c
}

// A frame's header and the two samples before it, from o on.
fn context(d: &[u8], o: usize) -> AdpcmContext
    requires { o + 6 ≤ length d.now }
    ensures { result ≡ context_at d.now o }
{
    AdpcmContext {
        pred_scale: word(d, o),
        history0: word(d, o + 2).cast_signed(),
        history1: word(d, o + 4).cast_signed(),
    }
}

// The header that a file begins with.
pub fn read_header(file: &[u8]) -> DspHeader
    requires { header_size ≤ length file.now }
    ensures { result ≡ header_of file.now }
{
    DspHeader {
        samples: long(file, 0x00),
        nibbles: long(file, 0x04),
        rate: long(file, 0x08),
        loop_flag: word(file, 0x0c),
        format: word(file, 0x0e),
        loop_start: long(file, 0x10),
        loop_end: long(file, 0x14),
        address: long(file, 0x18),
        coefficients: coefficients(file, 0x1c),
        gain: word(file, 0x3c),
        start_context: context(file, 0x3e),
        loop_context: context(file, 0x44),
    }
}

// Whether all bytes are 0.
fn all_zero(bytes: &[u8]) -> bool
    ensures { result ≡ list_all (λ b. eqb b 0) bytes.now }
{
    bytes.iter().all(|b| *b == 0)
}

// Whether the padding behind the values, 22 bytes, is 0.
pub fn padding_is_zero(file: &[u8]) -> bool
    requires { header_size ≤ length file.now }
    ensures { result ≡ eqb (padding_of file.now) 0 }
{
    all_zero(&file[0x4a..0x60])
}
