// Sample, nibble and byte places count differently, and none stands for another: a nibble or a byte is made
// from a sample by adpcm_nibble and adpcm_size alone.
ghost use Rattle.std.specs.Prelude.{◌≡◌, ◌+◌, ◌-◌, ◌/◌, ◌%◌, ◌≤◌, ◌<◌, ◌^◌, eqb};
ghost use Rattle.adpcm.specs.Places.{nibble_of, size_of, held_of};

use crate::{ADPCM_BYTES_PER_FRAME, ADPCM_NIBBLES_PER_FRAME, ADPCM_SAMPLES_PER_FRAME};

#[derive(Clone, Copy)]
pub struct Sample(pub u64);

#[derive(Clone, Copy)]
pub struct Nibble(pub u64);

#[derive(Clone, Copy)]
pub struct Byte(pub u64);

impl Sample {
    // The sample n further on.
    pub fn plus(self, n: u64) -> Sample
        requires { self.0 + n < 2 ^ 64 }
        ensures { result.0 ≡ self.0 + n }
    {
        Sample(self.0 + n)
    }

    // How many samples it is past another; 0 where it is not.
    pub fn past(self, other: Sample) -> u64
        ensures { result ≡ self.0 - other.0 }
    {
        self.0.saturating_sub(other.0)
    }

    // Whether it is the first of a frame, and the frame's header stands before it.
    pub fn starts_frame(self) -> bool
        ensures { result ≡ eqb (self.0 % 14) 0 }
    {
        self.0 % ADPCM_SAMPLES_PER_FRAME == 0
    }
}

impl Nibble {
    // Whether it is its byte's high nibble, which is the first of the two.
    pub fn is_high(self) -> bool
        ensures { result ≡ eqb (self.0 % 2) 0 }
    {
        self.0 % 2 == 0
    }
}

impl Byte {
    // The byte n further on.
    pub fn plus(self, n: u64) -> Byte
        requires { self.0 + n < 2 ^ 64 }
        ensures { result.0 ≡ self.0 + n }
    {
        Byte(self.0 + n)
    }

    // The byte before it.
    pub fn before(self) -> Byte
        requires { 0 < self.0 }
        ensures { result.0 ≡ self.0 - 1 }
    {
        Byte(self.0 - 1)
    }

    // How many bytes it is past another; 0 where it is not.
    pub fn past(self, other: Byte) -> u64
        ensures { result ≡ self.0 - other.0 }
    {
        self.0.saturating_sub(other.0)
    }

    // Its place in a slice whose first byte is base.
    pub fn index_from(self, base: Byte) -> usize
        requires { base.0 ≤ self.0 }
        ensures { result ≡ self.0 - base.0 }
    {
        (self.0 - base.0) as usize
    }
}

// The nibble at which sample s is reached: its frame's header, for the first sample of a frame.
pub fn adpcm_nibble(s: Sample) -> Nibble
    requires { s.0 ≤ 2 ^ 63 }
    ensures { result.0 ≡ nibble_of s.0 }
{
    let in_frame = s.0 % ADPCM_SAMPLES_PER_FRAME;
    let frame = s.0 / ADPCM_SAMPLES_PER_FRAME * ADPCM_NIBBLES_PER_FRAME;
    if in_frame == 0 {
        Nibble(frame)
    } else {
        Nibble(frame + in_frame + 2)
    }
}

// The bytes that the samples before s take.
pub fn adpcm_size(s: Sample) -> Byte
    requires { s.0 ≤ 2 ^ 63 }
    ensures { result.0 ≡ size_of s.0 }
{
    let n = adpcm_nibble(s);
    Byte((n.0 + 1) / 2)
}

// The samples that the bytes before b hold: the inverse of adpcm_size. A frame's first byte is its header.
pub fn adpcm_size_samples(b: Byte) -> Sample
    requires { b.0 ≤ 2 ^ 62 }
    ensures { result.0 ≡ held_of b.0 }
{
    let frames = b.0 / ADPCM_BYTES_PER_FRAME * ADPCM_SAMPLES_PER_FRAME;
    let in_frame = b.0 % ADPCM_BYTES_PER_FRAME;
    if in_frame == 0 {
        Sample(frames)
    } else {
        Sample(frames + 2 * in_frame - 2)
    }
}

// The byte that holds the nibble at which sample s is reached.
pub fn adpcm_nibble_byte(s: Sample) -> Byte
    requires { s.0 ≤ 2 ^ 63 }
    ensures { result.0 ≡ nibble_of s.0 / 2 }
{
    let size = adpcm_size(s);
    if adpcm_nibble(s).is_high() {
        size
    } else {
        size.before()
    }
}
