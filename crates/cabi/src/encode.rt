// The call for encoding to ADPCM.
ghost use Rattle.std.specs.Prelude.{◌≡◌};
ghost use Rattle.encoder.specs.Answer.{encode_call};
ghost use Rattle.cabi.specs.Decode.{context_in, sixteen_of};
ghost use Rattle.cabi.specs.Encode.{encode_left, encode_told};

use crate::decode::{JeqllunaContext, context_in, sixteen};
use encoder::{EncodeError, Encoding};

#[repr(C)]
#[derive(Clone, Copy)]
pub struct JeqllunaEncoded {
    pub number: u32,
    // How many bytes were written.
    pub size: usize,
    // The last frame's header and the last two samples that its bytes decode to, the later first.
    pub context: JeqllunaContext,
    // The sum of squared differences between the samples and what the bytes decode to, held at 2^64 - 1.
    pub error: u64,
}

// An answer in numbers.
fn encode_told(a: Result<(usize, Encoding), EncodeError>) -> JeqllunaEncoded
    ensures { result ≡ encode_told a }
{
    match a {
        Ok((size, e)) => {
            let context = JeqllunaContext {
                pred_scale: e.context.pred_scale,
                history0: e.context.history0,
                history1: e.context.history1,
            };
            JeqllunaEncoded {
                number: 0,
                size,
                context,
                error: e.error,
            }
        }
        Err(e) => {
            let context = JeqllunaContext {
                pred_scale: 0,
                history0: 0,
                history1: 0,
            };
            JeqllunaEncoded {
                number: e.number(),
                size: 0,
                context,
                error: 0,
            }
        }
    }
}

// Encodes samples, after the context's last two, to the front of output. Of the coefficients the first sixteen count; one past the end of a
// shorter slice is 0.
#[unsafe(no_mangle)]
pub extern "C" fn jeqlluna_encode_adpcm(
    samples: &[i16],
    coefficients: &[i16],
    context: JeqllunaContext,
    output: &mut [u8],
) -> JeqllunaEncoded
    ensures { encode_left result output.new
        ≡ encode_call samples.now (sixteen_of coefficients.now) (context_in context) output.old }
{
    let pairs = sixteen(coefficients);
    encode_told(encoder::encode_adpcm(samples, &pairs, context_in(context), output))
}
