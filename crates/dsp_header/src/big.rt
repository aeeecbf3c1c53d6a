// Big-endian numbers of a slice of bytes.
ghost use Rattle.std.specs.Prelude.{◌≡◌, ◌+◌, ◌≤◌, length};
ghost use Rattle.dsp_header.specs.Big.{big};

// The number that two bytes are, the higher first.
pub fn word(d: &[u8], o: usize) -> u16
    requires { o + 2 ≤ length d.now }
    ensures { result ≡ big 2 d.now o }
{
    u16::from_be_bytes([d[o], d[o + 1]])
}

// The number that four bytes are, the highest first.
pub fn long(d: &[u8], o: usize) -> u32
    requires { o + 4 ≤ length d.now }
    ensures { result ≡ big 4 d.now o }
{
    u32::from_be_bytes([d[o], d[o + 1], d[o + 2], d[o + 3]])
}
