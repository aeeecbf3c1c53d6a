ghost use Rattle.std.specs.Prelude.{◌≡◌, ◌/◌, ◌≤◌, ◌^◌, length};
ghost use Rattle.adpcm.specs.Places.{nibble_of};
ghost use Rattle.adpcm.specs.Decode.{half_of, value_of, took_of, run_of, Decodes};
ghost use Rattle.adpcm.specs.Runs.{count_of};
ghost use Rattle.adpcm.specs.Answer.{number_of, seen, outcome_of};

use crate::context::{AdpcmContext, pair};
use crate::frame::{begins_frame, decode_frame};
use crate::places::{Byte, Sample, adpcm_nibble, adpcm_nibble_byte, adpcm_size_samples};
use crate::step::step;

// A byte's high nibble, or its low one.
fn half(b: u8, high: bool) -> u8
    ensures { result ≡ half_of high b }
{
    if high { b / 16 } else { b % 16 }
}

// The sample whose nibble is in the byte at a place of the data: the context's history0 then. An error, the context as it was: the bytes
// had run out.
fn take_value(
    data: &[u8],
    at: usize,
    high: bool,
    coefficients: &[i16; 16],
    ctx: AdpcmContext,
) -> Result<AdpcmContext, AdpcmContext>
    ensures { result ≡ value_of «data».now at high coefficients.now ctx }
{
    if data.len() <= at {
        return Err(ctx);
    }
    let v = half(data[at], high);
    let header = ctx.pred_scale;
    let (c, d) = pair(coefficients, header);
    let s = step(v, header % 16, c, d, ctx.history0, ctx.history1);
    Ok(AdpcmContext {
        pred_scale: header,
        history0: s,
        history1: ctx.history0,
    })
}

// Sample m, of data whose first byte is base. At a frame's start its header is read first, and an error's context has it.
fn take_one(
    data: &[u8],
    base: Byte,
    m: Sample,
    coefficients: &[i16; 16],
    ctx: AdpcmContext,
) -> Result<AdpcmContext, AdpcmContext>
    requires { (m.0 ≤ 2 ^ 63) × (base.0 ≤ nibble_of m.0 / 2) }
    ensures { result ≡ took_of «data».now base.0 coefficients.now m.0 ctx }
{
    let at = adpcm_nibble_byte(m).index_from(base);
    if m.starts_frame() {
        if data.len() <= at {
            return Err(ctx);
        }
        let read = AdpcmContext {
            pred_scale: u16::from(data[at]),
            ..ctx
        };
        take_value(data, at + 1, true, coefficients, read)
    } else {
        let high = adpcm_nibble(m).is_high();
        take_value(data, at, high, coefficients, ctx)
    }
}

// How many of want samples from start on a slice of so many bytes holds. Its first byte is the one that holds the start's nibble.
pub fn adpcm_count(bytes: u64, start: Sample, want: u32) -> u32
    requires { (start.0 ≤ 2 ^ 60) × (bytes ≤ 2 ^ 60) }
    ensures { result ≡ count_of bytes start.0 want }
{
    let end = adpcm_nibble_byte(start).plus(bytes);
    let left = adpcm_size_samples(end).past(start);
    left.min(u64::from(want)) as u32
}

#[derive(Clone, Copy)]
pub struct Decoded {
    pub done: usize,
    pub context: AdpcmContext,
}

// Decodes count samples from start on into the front of out. The data's first byte is the one that holds the start's nibble.
pub fn decode_adpcm(
    data: &[u8],
    start: Sample,
    count: usize,
    coefficients: &[i16; 16],
    ctx: AdpcmContext,
    out: &mut [f32],
) -> Decoded
    requires { (start.0 ≤ 2 ^ 60) × (count ≤ length out.old) }
    ensures { Decodes (run_of «data».now start.0 count coefficients.now ctx) out.old out.new result.done result.context }
{
    let base = adpcm_nibble_byte(start);
    let mut x = ctx;
    let mut done: usize = 0;
    while done < count {
        let m = start.plus(done as u64);
        let at = adpcm_nibble_byte(m).index_from(base);
        if begins_frame(data.len(), at, m, count, done) {
            x = decode_frame(
                &data[at..at + 8],
                coefficients,
                x,
                &mut out[done..done + 14],
            );
            done += 14;
        } else {
            match take_one(data, base, m, coefficients, x) {
                Err(y) => return Decoded { done, context: y },
                Ok(y) => {
                    out[done] = f32::from(y.history0);
                    x = y;
                    done += 1;
                }
            }
        }
    }
    Decoded { done, context: x }
}

// Why a call is refused.
#[derive(Clone, Copy, Debug, PartialEq, Eq)]
pub enum AdpcmError {
    // The start is above 2^60.
    FarStart,
    // The output is shorter than count.
    ShortOutput,
}

impl AdpcmError {
    // The number of the question that refuses it.
    pub fn number(self) -> u32
        ensures { result ≡ number_of self }
    {
        match self {
            AdpcmError::FarStart => 8,
            AdpcmError::ShortOutput => 9,
        }
    }
}

// The call for ADPCM alone: decode_adpcm, of any arguments.
pub fn decode_adpcm_checked(
    data: &[u8],
    start: Sample,
    count: usize,
    coefficients: &[i16; 16],
    ctx: AdpcmContext,
    out: &mut [f32],
) -> Result<Decoded, AdpcmError>
    ensures { seen result out.new ≡ outcome_of «data».now start.0 count coefficients.now ctx out.old }
{
    if 0x1000_0000_0000_0000 < start.0 {
        return Err(AdpcmError::FarStart);
    }
    if out.len() < count {
        return Err(AdpcmError::ShortOutput);
    }
    Ok(decode_adpcm(data, start, count, coefficients, ctx, out))
}
