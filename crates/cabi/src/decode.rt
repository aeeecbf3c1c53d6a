// The call for decoding ADPCM, and what the calls for ADPCM share.
ghost use Rattle.std.specs.Prelude.{◌≡◌, pos, get_or};
ghost use Rattle.adpcm.specs.Answer.{outcome_of};
ghost use Rattle.cabi.specs.Decode.{context_in, sixteen_of, decode_left, decoded, decode_told};

use adpcm::{AdpcmContext, AdpcmError, Decoded, Sample};

// The last header and the last two samples, the later first.
#[repr(C)]
#[derive(Clone, Copy)]
pub struct JeqllunaContext {
    pub pred_scale: u16,
    pub history0: i16,
    pub history1: i16,
}

#[repr(C)]
#[derive(Clone, Copy)]
pub struct JeqllunaDecoded {
    pub number: u32,
    // How many samples were decoded.
    pub done: usize,
    pub context: JeqllunaContext,
}

// A context as C has it.
pub fn context_told(x: AdpcmContext) -> JeqllunaContext
    ensures { context_in result ≡ x }
{
    JeqllunaContext {
        pred_scale: x.pred_scale,
        history0: x.history0,
        history1: x.history1,
    }
}

// A context from C.
pub fn context_in(x: JeqllunaContext) -> AdpcmContext
    ensures { result ≡ context_in x }
{
    AdpcmContext {
        pred_scale: x.pred_scale,
        history0: x.history0,
        history1: x.history1,
    }
}

// One coefficient; 0 past the end.
fn coefficient_at(coefficients: &[i16], k: usize) -> i16
    ensures { result ≡ get_or coefficients.now k (pos 0) }
{
    if coefficients.len() <= k {
        return 0;
    }
    coefficients[k]
}

// The first sixteen coefficients.
pub fn sixteen(coefficients: &[i16]) -> [i16; 16]
    ensures { result ≡ sixteen_of coefficients.now }
{
    let mut c = [0; 16];
    for k in 0..16 {
        c[k] = coefficient_at(coefficients, k);
    }
    c
}

fn refused(number: u32) -> JeqllunaDecoded
    ensures { result ≡ decoded number 0 0 (pos 0) (pos 0) }
{
    let context = JeqllunaContext {
        pred_scale: 0,
        history0: 0,
        history1: 0,
    };
    JeqllunaDecoded {
        number,
        done: 0,
        context,
    }
}

fn decode_told(a: Result<Decoded, AdpcmError>) -> JeqllunaDecoded
    ensures { result ≡ decode_told a }
{
    match a {
        Ok(d) => {
            let context = JeqllunaContext {
                pred_scale: d.context.pred_scale,
                history0: d.context.history0,
                history1: d.context.history1,
            };
            JeqllunaDecoded {
                number: 0,
                done: d.done,
                context,
            }
        }
        Err(e) => refused(e.number()),
    }
}

// Decodes count samples from start on into the front of output. The data's first byte is the one that holds the start's nibble.
// Of the coefficients the first sixteen count; one past the end of a shorter slice is 0.
#[unsafe(no_mangle)]
pub extern "C" fn jeqlluna_decode_adpcm(
    data: &[u8],
    start: u64,
    count: usize,
    coefficients: &[i16],
    context: JeqllunaContext,
    output: &mut [f32],
) -> JeqllunaDecoded
    ensures { decode_left result output.new
        ≡ outcome_of «data».now start count (sixteen_of coefficients.now) (context_in context) output.old }
{
    let pairs = sixteen(coefficients);
    let before = AdpcmContext {
        pred_scale: context.pred_scale,
        history0: context.history0,
        history1: context.history1,
    };
    decode_told(adpcm::decode_adpcm_checked(data, Sample(start), count, &pairs, before, output))
}
