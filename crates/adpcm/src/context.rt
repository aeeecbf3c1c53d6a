ghost use Rattle.std.specs.Prelude.{◌≡◌, ◌+◌, ◌≤◌, pos, get_or};
ghost use Rattle.adpcm.specs.Context.{context_of, coefficients_of};
ghost use Rattle.adpcm.specs.Decode.{pair_of};

use fields::u16_at;

// What a decode starts from and leaves: the last header and the last two samples, the later first. The default is 0.
#[derive(Clone, Copy, Default)]
pub struct AdpcmContext {
    pub pred_scale: u16,
    pub history0: i16,
    pub history1: i16,
}

impl AdpcmContext {
    // The context that a block of bytes holds; a field past the end is 0.
    pub fn parse(d: &[u8]) -> AdpcmContext
        ensures { result ≡ context_of d.now }
    {
        AdpcmContext {
            pred_scale: u16_at(d, 0),
            history0: u16_at(d, 2).cast_signed(),
            history1: u16_at(d, 4).cast_signed(),
        }
    }
}

// The eight pairs of coefficients that a block of bytes holds, 16 signed numbers; one past the end is 0.
pub fn coefficients(d: &[u8]) -> [i16; 16]
    ensures { result ≡ coefficients_of d.now }
{
    let mut c = [0; 16];
    for k in 0..16 {
        c[k] = u16_at(d, k * 2).cast_signed();
    }
    c
}

// The pair of coefficients that a header's predictor picks; the predictors 8 to 15 pick as 0 to 7.
pub fn pair(coefficients: &[i16; 16], header: u16) -> (i16, i16)
    ensures first { result.0 ≡ get_or coefficients.now (pair_of header) (pos 0) }
    ensures second { result.1 ≡ get_or coefficients.now (pair_of header + 1) (pos 0) }
{
    let p = usize::from(header / 16 % 8 * 2);
    (coefficients[p], coefficients[p + 1])
}
