// Questions 1 and 2: whether there is a renderer with these parameters.
ghost use Rattle.std.specs.Prelude.{◌≡◌};
ghost use Rattle.renderer.specs.Answers.{allowed_of};

use crate::answers::LengthsError;
use params::Params;

pub fn allowed(p: Params) -> Result<(), LengthsError>
    ensures { result ≡ allowed_of p }
{
    if !whole::samples_allowed(p) {
        return Err(LengthsError::Samples);
    }
    if !whole::counts_allowed(p) {
        return Err(LengthsError::Counts);
    }
    Ok(())
}
