// The plan of `decode` of mixer.rs: how many samples a wave buffer gives from a place on, and what is read for them.
ghost use Rattle.std.specs.Prelude.{◌≡◌, ◌-◌, ◌^◌, ◌<◌, ◌≤◌, min};
ghost use Rattle.plan.specs.Source.{over};
ghost use Rattle.plan.specs.Attempt.{no_samples, pcm_plan, adpcm_plan, decode_plan};

use crate::{Decode, Source};
use adpcm::{Byte, Sample};
use voice::WaveBuffer;

// How many samples a decode gives, and what it is; one that gives none is missing, and ends the buffer.
#[derive(Clone, Copy)]
pub struct Attempt {
    pub got: Option<u32>,
    pub decode: Decode,
}

// Nothing to be had.
fn missing() -> Attempt
    ensures { result ≡ no_samples }
{
    Attempt {
        got: None,
        decode: Decode::Nothing,
    }
}

// PCM of a width in bytes: as many frames as the buffer has from start on, at most want, if they can be read.
fn plan_pcm(
    width: u32,
    s: Source,
    ranges: &[u64],
    wb: WaveBuffer,
    start: Sample,
    want: u32,
) -> Attempt
    requires width_nonzero { (0 < width) × (width ≤ 4) }
    requires channels_nonzero { (0 < s.channels) × (s.channels ≤ 6) }
    requires start_bound { (start.0 < 2 ^ 32) × (want ≤ 2 ^ 16) }
    ensures { result ≡ pcm_plan width (over s ranges.now) wb start want }
{
    let frame = (width * s.channels) as u64;
    let frames = wb.size / frame;
    let n = frames_left(start, Sample(frames), want);
    if n == 0 {
        return missing();
    }
    let addr = wb.addr.wrapping_add(start.0 * frame);
    if ranges::readable(ranges, addr, n as u64 * frame) {
        return Attempt {
            got: Some(n),
            decode: Decode::Pcm(width, addr, n),
        };
    }
    missing()
}

// The lesser of want and the frames from start up to end.
fn frames_left(start: Sample, end: Sample, want: u32) -> u32
    ensures { result ≡ min want (end.0 - start.0) }
{
    end.past(start).min(want as u64) as u32
}

// ADPCM: the bytes from the one that holds the start's nibble to the end of the wanted samples or of the buffer.
fn plan_adpcm(s: Source, ranges: &[u64], wb: WaveBuffer, start: Sample, want: u32) -> Attempt
    requires { (start.0 < 2 ^ 32) × (want ≤ 2 ^ 16) }
    ensures { result ≡ adpcm_plan (over s ranges.now) wb start want }
{
    let first = adpcm::adpcm_nibble_byte(start);
    let wanted = adpcm::adpcm_size(start.plus(want as u64)).past(first);
    let bytes = wanted.min(Byte(wb.size).past(first));
    if bytes == 0 {
        return missing();
    }
    let addr = wb.addr.wrapping_add(first.0);
    if ranges::readable(ranges, addr, bytes) {
        let n = adpcm::adpcm_count(bytes, start, want);
        return Attempt {
            got: (n != 0).then_some(n),
            decode: Decode::Adpcm(want, addr, bytes, start),
        };
    }
    missing()
}

// What a decode of want samples from start on gives.
pub fn plan_decode(s: Source, ranges: &[u64], wb: WaveBuffer, start: Sample, want: u32) -> Attempt
    requires channels_nonzero { (0 < s.channels) × (s.channels ≤ 6) }
    requires start_bound { (start.0 < 2 ^ 32) × (want ≤ 2 ^ 16) }
    ensures { result ≡ decode_plan (over s ranges.now) wb start want }
{
    if want == 0 {
        return Attempt {
            got: Some(0),
            decode: Decode::Nothing,
        };
    }
    match s.format {
        voice::PCM_INT16 => plan_pcm(2, s, ranges, wb, start, want),
        voice::PCM_FLOAT => plan_pcm(4, s, ranges, wb, start, want),
        voice::ADPCM => plan_adpcm(s, ranges, wb, start, want),
        _ => Attempt {
            got: Some(want),
            decode: Decode::Silence(want),
        },
    }
}
