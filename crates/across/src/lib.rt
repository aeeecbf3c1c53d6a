// A read of sample memory as the decoder takes it: from the slice itself where it lies in one range, gathered where it crosses.
#![tactic(auto)]

ghost use Rattle.std.specs.Prelude.{◌≡◌, true, ◌≤◌, ◌^◌, IfSome, length, take};
ghost use Rattle.ranges.specs.Ranges.{ranges_of, readable_of};
ghost use Rattle.memory.specs.Memory.{read_of};
ghost use Rattle.adpcm.specs.Context.{context_of, coefficients_of};
ghost use Rattle.adpcm.specs.Decode.{run_of, Decodes};
ghost use Rattle.across.specs.Lengths.{context_bytes, table_bytes, adpcm_bytes, frame_bytes};

use adpcm::{AdpcmContext, Decoded, Sample};
use memory::SampleMemory;

// The bytes of an ADPCM context.
pub const CONTEXT_BYTES: usize = 6;

// The bytes of eight pairs of coefficients.
pub const TABLE_BYTES: usize = 32;

// The most bytes that one read of ADPCM takes: those of 4,097 samples.
pub const ADPCM_BYTES: usize = 2342;

// The most bytes that a frame of PCM has: six channels of four.
pub const FRAME_BYTES: usize = 24;

// The bytes of a read, as a part of the slice; none where no range has all of them.
fn part<'a>(memory: &'a SampleMemory, addr: u64, len: u64) -> Option<&'a [u8]>
    ensures { IfSome result (λ d. d.now ≡ read_of (ranges_of memory.now.ranges.now) memory.now.bytes.now addr len) }
{
    let s = ranges::stretch_at(memory.ranges, addr)?;
    if len <= s.room {
        let at = s.at as usize;
        let end = at + len as usize;
        return Some(&memory.bytes[at..end]);
    }
    None
}

// The N bytes at an address: from the slice itself, or gathered into the room; no byte where they can't be read.
fn bytes_at<'a, const N: usize>(
    memory: &'a SampleMemory,
    addr: u64,
    room: &'a mut [u8; N],
) -> &'a [u8]
    ensures { result.now ≡ read_of (ranges_of memory.now.ranges.now) memory.now.bytes.now addr N }
{
    if let Some(d) = part(memory, addr, N as u64) {
        return d;
    }
    if !ranges::readable(memory.ranges, addr, N as u64) {
        return &memory.bytes[..0];
    }
    memory.gather(addr, room);
    room
}

// The ADPCM context at an address; zeros where it can't be read.
pub fn context(memory: &SampleMemory, addr: u64) -> AdpcmContext
    ensures { result ≡ context_of (read_of (ranges_of memory.now.ranges.now) memory.now.bytes.now addr context_bytes) }
{
    let mut block = [0u8; CONTEXT_BYTES];
    AdpcmContext::parse(bytes_at(memory, addr, &mut block))
}

// The eight pairs of coefficients at an address; zeros where they can't be read.
pub fn coefficients(memory: &SampleMemory, addr: u64) -> [i16; 16]
    ensures { result ≡ coefficients_of (read_of (ranges_of memory.now.ranges.now) memory.now.bytes.now addr table_bytes) }
{
    let mut block = [0u8; TABLE_BYTES];
    adpcm::coefficients(bytes_at(memory, addr, &mut block))
}

// Decodes want samples from start on of the bytes at an address, the first of which holds the start's nibble, into the front of out.
pub fn decode_adpcm(
    memory: &SampleMemory,
    addr: u64,
    bytes: u64,
    start: Sample,
    want: usize,
    coefficients: &[i16; 16],
    x: AdpcmContext,
    out: &mut [f32],
) -> Decoded
    requires bytes_value { (readable_of (ranges_of memory.now.ranges.now) addr bytes ≡ true) × (bytes ≤ adpcm_bytes) }
    requires start_bound { (start.0 ≤ 2 ^ 60) × (want ≤ length out.old) }
    ensures { Decodes (run_of (read_of (ranges_of memory.now.ranges.now) memory.now.bytes.now addr bytes) start.0 want
        coefficients.now x) out.old out.new result.done result.context }
{
    if let Some(d) = part(memory, addr, bytes) {
        return adpcm::decode_adpcm(d, start, want, coefficients, x, out);
    }
    decode_across(
        memory,
        addr,
        bytes as usize,
        start,
        want,
        coefficients,
        x,
        out,
    )
}

// The same where no range has all of them: they are gathered first. The room for them stands on the stack here alone.
fn decode_across(
    memory: &SampleMemory,
    addr: u64,
    bytes: usize,
    start: Sample,
    want: usize,
    coefficients: &[i16; 16],
    x: AdpcmContext,
    out: &mut [f32],
) -> Decoded
    requires bytes_value { (readable_of (ranges_of memory.now.ranges.now) addr bytes ≡ true) × (bytes ≤ adpcm_bytes) }
    requires start_bound { (start.0 ≤ 2 ^ 60) × (want ≤ length out.old) }
    ensures { Decodes (run_of (read_of (ranges_of memory.now.ranges.now) memory.now.bytes.now addr bytes) start.0 want
        coefficients.now x) out.old out.new result.done result.context }
{
    let mut room = [0u8; ADPCM_BYTES];
    memory.gather(addr, &mut room[..bytes]);
    adpcm::decode_adpcm(&room[..bytes], start, want, coefficients, x, out)
}

// The bytes of one frame of PCM at an address, at the front of as many as a frame can have.
pub fn frame(memory: &SampleMemory, addr: u64, size: usize) -> [u8; FRAME_BYTES]
    requires size_value { (readable_of (ranges_of memory.now.ranges.now) addr size ≡ true) × (size ≤ frame_bytes) }
    ensures { take size result ≡ read_of (ranges_of memory.now.ranges.now) memory.now.bytes.now addr size }
{
    let mut block = [0u8; FRAME_BYTES];
    memory.gather(addr, &mut block[..size]);
    block
}
