// Exports of inner functions for the drivers of compare/, which hold them to the oracle. No part of the interface for titles.
#![tactic(auto)]

use adpcm::{AdpcmContext, Sample};

#[repr(C)]
#[derive(Clone, Copy)]
pub struct ProbeDecoded {
    pub number: u32,
    pub done: u64,
    pub pred_scale: u16,
    pub history0: i16,
    pub history1: i16,
}

#[repr(C)]
#[derive(Clone, Copy)]
pub struct ProbeContext {
    pub pred_scale: u16,
    pub history0: i16,
    pub history1: i16,
}

fn refused(number: u32) -> ProbeDecoded {
    ProbeDecoded {
        number,
        done: 0,
        pred_scale: 0,
        history0: 0,
        history1: 0,
    }
}

#[unsafe(no_mangle)]
pub extern "C" fn probe_decode_adpcm(
    data: &[u8],
    start: u64,
    count: usize,
    coefficients: &[i16; 16],
    pred_scale: u16,
    history0: i16,
    history1: i16,
    out: &mut [f32],
) -> ProbeDecoded {
    let ctx = AdpcmContext {
        pred_scale,
        history0,
        history1,
    };
    match adpcm::decode_adpcm_checked(data, Sample(start), count, coefficients, ctx, out) {
        Ok(d) => ProbeDecoded {
            number: 0,
            done: d.done as u64,
            pred_scale: d.context.pred_scale,
            history0: d.context.history0,
            history1: d.context.history1,
        },
        Err(e) => refused(e.number()),
    }
}

#[unsafe(no_mangle)]
pub extern "C" fn probe_parse(data: &[u8]) -> ProbeContext {
    let c = AdpcmContext::parse(data);
    ProbeContext {
        pred_scale: c.pred_scale,
        history0: c.history0,
        history1: c.history1,
    }
}

// 0 above 2^63, where the oracle is not asked.
#[unsafe(no_mangle)]
pub extern "C" fn probe_adpcm_size(samples: u64) -> u64 {
    if samples > 0x8000_0000_0000_0000 {
        return 0;
    }
    adpcm::adpcm_size(Sample(samples)).0
}

// The sample -1 where the slices are not as resample requires.
#[unsafe(no_mangle)]
pub extern "C" fn probe_resample(
    input: &[f32],
    out: &mut [f32],
    count: u32,
    ratio: f32,
    fraction: f32,
) -> f32 {
    if input.len() < 3 || input.len() > 0xffff_ffff || out.len() < count as usize {
        return -1.0;
    }
    resample::resample(input, out, count, ratio, fraction)
}

#[unsafe(no_mangle)]
pub extern "C" fn probe_needed(fraction: f32, ratio: f32, count: u32) -> u64 {
    resample::needed(fraction, ratio, count) as u64
}

#[unsafe(no_mangle)]
pub extern "C" fn probe_from_bits(b: u32) -> f32 {
    floats::from_bits(b)
}

#[unsafe(no_mangle)]
pub extern "C" fn probe_to_bits(x: f32) -> u32 {
    floats::to_bits(x)
}

#[unsafe(no_mangle)]
pub extern "C" fn probe_as_usize(x: f32) -> u64 {
    floats::as_usize(x) as u64
}

#[unsafe(no_mangle)]
pub extern "C" fn probe_floor(x: f32) -> f32 {
    floats::floor(x)
}

#[unsafe(no_mangle)]
pub extern "C" fn probe_min(a: f32, b: f32) -> f32 {
    floats::min(a, b)
}

#[unsafe(no_mangle)]
pub extern "C" fn probe_clamp(x: f32, low: f32, high: f32) -> f32 {
    floats::clamp(x, low, high)
}

#[unsafe(no_mangle)]
pub extern "C" fn probe_is_finite(x: f32) -> u32 {
    if floats::is_finite(x) { 1 } else { 0 }
}

#[unsafe(no_mangle)]
pub extern "C" fn probe_clamp_ratio(x: f32) -> f32 {
    floats::clamp_ratio(x)
}
