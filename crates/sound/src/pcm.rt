// PCM: one channel of frames that are read, as floats of 16-bit size.
ghost use Rattle.std.specs.Prelude.{◌≡◌, true, ◌||◌, ◌++◌, ◌+◌, ◌-◌, ◌*◌, ◌≤◌, ◌<◌, ◌^◌, eqb, length, take, drop, replicate};
ghost use Rattle.ranges.specs.Ranges.{ranges_of, readable_of};
ghost use Rattle.memory.specs.Memory.{read_of};
ghost use Rattle.floats.specs.Defs.{zero32};
ghost use Rattle.sound.specs.Sound.{pcm_at, pcm_of};

use memory::SampleMemory;
use plan::Source;

// Where the sample of channel c in frame j begins.
fn place(j: usize, channels: usize, c: usize, width: usize) -> usize
    requires { (j < 2 ^ 32) × (channels ≤ 6) × (c < 2 ^ 32) × (width ≤ 4) }
    ensures { result ≡ (j * channels + c) * width }
{
    (j * channels + c) * width
}

// 16 bits, signed, as they are.
fn int16_at(d: &[u8], o: usize) -> f32
    ensures { result ≡ pcm_at 2 d.now o }
{
    fields::u16_at(d, o).cast_signed() as f32
}

// A float, times 32768.
fn float_at(d: &[u8], o: usize) -> f32
    ensures { result ≡ pcm_at 4 d.now o }
{
    fields::f32_at(d, o) * 32768.0
}

// A sample of a width in bytes.
fn sample_at(width: usize, d: &[u8], o: usize) -> f32
    requires { eqb width 2 || eqb width 4 ≡ true }
    ensures { result ≡ pcm_at width d.now o }
{
    if width == 2 {
        return int16_at(d, o);
    }
    float_at(d, o)
}

// Channel c of n frames of samples of a width, into the front of out. Never inlined: its loop needs registers that the code around a call
// holds.
#[inline(never)]
fn frames(width: usize, d: &[u8], channels: usize, c: usize, n: usize, out: &mut [f32])
    requires width_value { eqb width 2 || eqb width 4 ≡ true }
    requires channels_bound { (channels ≤ 6) × (c < 2 ^ 32) × (n < 2 ^ 32) × (n ≤ length out.old) }
    ensures { out.new ≡ pcm_of width channels c d.now n ++ drop n out.old }
{
    for j in 0..n {
        out[j] = sample_at(width, d, place(j, channels, c, width));
    }
}

// n zeros into the front of out.
pub fn zeros(n: usize, out: &mut [f32])
    requires { n ≤ length out.old }
    ensures { out.new ≡ replicate n zero32 ++ drop n out.old }
{
    out[..n].fill(0.0);
}

// Zeros from a place on.
pub fn zeros_from(out: &mut [f32], at: usize)
    requires { at ≤ length out.old }
    ensures { out.new ≡ take at out.old ++ replicate (length out.old - at) zero32 }
{
    let n = out.len() - at;
    zeros(n, &mut out[at..]);
}

// One frame at an address that no range has whole: it is gathered. Its sample of channel c into the front of out.
fn straddling_frame(
    width: usize,
    addr: u64,
    channels: usize,
    memory: &SampleMemory,
    c: usize,
    out: &mut [f32],
)
    requires width_value { eqb width 2 || eqb width 4 ≡ true }
    requires channels_bound { (channels ≤ 6) × (c < channels) × (1 ≤ length out.old) }
    requires channels_value { readable_of (ranges_of memory.now.ranges.now) addr (width * channels) ≡ true }
    ensures { out.new
        ≡ pcm_of width channels c (read_of (ranges_of memory.now.ranges.now) memory.now.bytes.now addr (width * channels)) 1
        ++ drop 1 out.old }
{
    let frame = width * channels;
    let block = across::frame(memory, addr, frame);
    frames(width, &block[..frame], channels, c, 1, out);
}

// The first of n frames at an address: those that its range has whole, from the slice itself, or one where it has none.
// Channel c into the front of out. Gives how many frames.
fn next_frames(
    width: usize,
    addr: u64,
    n: usize,
    channels: usize,
    memory: &SampleMemory,
    c: usize,
    out: &mut [f32],
) -> usize
    requires width_value { eqb width 2 || eqb width 4 ≡ true }
    requires channels_bound { (channels ≤ 6) × (c < channels) × (0 < n) × (n < 2 ^ 32) × (n ≤ length out.old) }
    requires channels_value { readable_of (ranges_of memory.now.ranges.now) addr (n * (width * channels)) ≡ true }
    ensures result_nonzero { (0 < result) × (result ≤ n) }
    ensures out_after { out.new
        ≡ pcm_of width channels c (read_of (ranges_of memory.now.ranges.now) memory.now.bytes.now addr (result * (width * channels))) result
        ++ drop result out.old }
{
    let frame = width * channels;
    if let Some(s) = ranges::stretch_at(memory.ranges, addr) {
        let whole = (n as u64).min(s.room / frame as u64) as usize;
        if whole != 0 {
            let at = s.at as usize;
            let end = at + whole * frame;
            frames(width, &memory.bytes[at..end], channels, c, whole, out);
            return whole;
        }
    }
    straddling_frame(width, addr, channels, memory, c, out);
    1
}

// Channel c of n frames at an address, stretch by stretch, into the front of out.
fn all_frames(
    width: usize,
    addr: u64,
    n: usize,
    channels: usize,
    memory: &SampleMemory,
    c: usize,
    out: &mut [f32],
)
    requires width_value { eqb width 2 || eqb width 4 ≡ true }
    requires channels_bound { (channels ≤ 6) × (c < channels) × (n < 2 ^ 32) × (n ≤ length out.old) }
    requires channels_value { readable_of (ranges_of memory.now.ranges.now) addr (n * (width * channels)) ≡ true }
    ensures { out.new
        ≡ pcm_of width channels c (read_of (ranges_of memory.now.ranges.now) memory.now.bytes.now addr (n * (width * channels))) n
        ++ drop n out.old }
{
    let frame = width * channels;
    let mut done = 0usize;
    while done < n {
        let at = addr + (done * frame) as u64;
        let made = next_frames(width, at, n - done, channels, memory, c, &mut out[done..]);
        done += made;
    }
}

// Channel c of n frames of a width that are read at an address, into the front of out.
pub fn pcm(width: u32, addr: u64, n: u32, s: Source, memory: &SampleMemory, c: u32, out: &mut [f32])
    requires width_value { (eqb width 2 || eqb width 4 ≡ true) × (s.channels ≤ 6) × (c < s.channels) × (n ≤ length out.old) }
    requires channels_value { readable_of (ranges_of memory.now.ranges.now) addr (n * (width * s.channels)) ≡ true }
    ensures { out.new
        ≡ pcm_of width s.channels c (read_of (ranges_of memory.now.ranges.now) memory.now.bytes.now addr (n * (width * s.channels))) n
        ++ drop n out.old }
{
    all_frames(
        width as usize,
        addr,
        n as usize,
        s.channels as usize,
        memory,
        c as usize,
        out,
    );
}
