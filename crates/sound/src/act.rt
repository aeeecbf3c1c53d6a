// One act of a plan, on one channel.
ghost use Rattle.std.specs.Prelude.{◌≡◌, true, ◌≤◌, ◌<◌, length};
ghost use Rattle.ranges.specs.Ranges.{ranges_of, readable_of};
ghost use Rattle.memory.specs.Memory.{read_of};
ghost use Rattle.plan.specs.declared.Decode.TheVariants.{Adpcm};
ghost use Rattle.plan.specs.Source.{over};
ghost use Rattle.plan.specs.Fits.{formed_of};
ghost use Rattle.sound.specs.Sound.{decode_adpcm, decode_on, renewed_context, perform};
ghost use Rattle.sound.specs.Perform.{most_samples, fresh, Room, RoomAt, Performed, PerformedAt};

use crate::pcm::{pcm, zeros};
use adpcm::{AdpcmContext, Sample};
use memory::SampleMemory;
use plan::{Act, Decode, Source};

// What an act leaves: how many samples it made, and the ADPCM context.
#[derive(Clone, Copy)]
pub struct Played {
    pub made: usize,
    pub adpcm: AdpcmContext,
}

// ADPCM is decoded on channel 0; the others get as many zeros.
fn play_adpcm(
    addr: u64,
    bytes: u64,
    start: Sample,
    want: u32,
    memory: &SampleMemory,
    coefficients: &[i16; 16],
    x: AdpcmContext,
    c: u32,
    out: &mut [f32],
) -> Played
    requires bytes_value { (readable_of (ranges_of memory.now.ranges.now) addr bytes ≡ true)
        × (formed_of (Adpcm want addr bytes start) ≡ true) }
    requires want_in_bounds { (want ≤ length out.old) × (want ≤ most_samples) }
    ensures { Performed (decode_adpcm c (read_of (ranges_of memory.now.ranges.now) memory.now.bytes.now addr bytes) start want
        coefficients.now (fresh x)) out.old out.new result.made result.adpcm }
{
    if c == 0 {
        let r = across::decode_adpcm(
            memory,
            addr,
            bytes,
            start,
            want as usize,
            coefficients,
            x,
            out,
        );
        return Played {
            made: r.done,
            adpcm: r.context,
        };
    }
    let n = adpcm::adpcm_count(bytes, start, want) as usize;
    zeros(n, out);
    Played { made: n, adpcm: x }
}

// A decode, into the front of out.
fn play_decode(
    decode: Decode,
    s: Source,
    memory: &SampleMemory,
    coefficients: &[i16; 16],
    x: AdpcmContext,
    c: u32,
    out: &mut [f32],
) -> Played
    requires room { Room (over s memory.now.ranges.now) memory.now.bytes.now decode out.old }
    requires c_lt_channels { c < s.channels }
    ensures { Performed
        (decode_on (over s memory.now.ranges.now) memory.now.bytes.now coefficients.now c decode (fresh x))
        out.old out.new result.made result.adpcm }
{
    match decode {
        Decode::Nothing => Played { made: 0, adpcm: x },
        Decode::Pcm(width, addr, n) => {
            pcm(width, addr, n, s, memory, c, out);
            Played {
                made: n as usize,
                adpcm: x,
            }
        }
        Decode::Adpcm(want, addr, bytes, start) => {
            play_adpcm(addr, bytes, start, want, memory, coefficients, x, c, out)
        }
        Decode::Silence(n) => {
            zeros(n as usize, out);
            Played {
                made: n as usize,
                adpcm: x,
            }
        }
    }
}

// The ADPCM context that a buffer begins with, where one is read.
fn renew(context: Option<u64>, memory: &SampleMemory, x: AdpcmContext) -> AdpcmContext
    ensures { result ≡ renewed_context (ranges_of memory.now.ranges.now) memory.now.bytes.now context x }
{
    match context {
        None => x,
        Some(addr) => across::context(memory, addr),
    }
}

// An act, into the row from a place on.
pub fn play(
    a: Act,
    s: Source,
    memory: &SampleMemory,
    coefficients: &[i16; 16],
    x: AdpcmContext,
    c: u32,
    out: &mut [f32],
    at: usize,
) -> Played
    requires room_at { RoomAt (over s memory.now.ranges.now) memory.now.bytes.now a.decode at out.old }
    requires c_lt_channels { c < s.channels }
    ensures { PerformedAt at
        (perform (over s memory.now.ranges.now) memory.now.bytes.now coefficients.now c a (fresh x))
        out.old out.new result.made result.adpcm }
{
    let y = renew(a.context, memory, x);
    play_decode(a.decode, s, memory, coefficients, y, c, &mut out[at..])
}
