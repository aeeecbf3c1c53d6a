// The call for one update block of a title's and a click track's.
ghost use Rattle.std.specs.Prelude.{◌≡◌};
ghost use Rattle.params.specs.Params.{parse_of};
ghost use Rattle.merging.specs.Answer.{merge_call};
ghost use Rattle.cabi.specs.Merge.{merge_in, merge_told};

use merging::MergeError;
use params::Params;

#[repr(C)]
#[derive(Clone, Copy)]
pub struct JeqllunaMerged {
    pub number: u32,
    // How many bytes the merged block has.
    pub size: usize,
}

// An answer in numbers.
fn merge_told(a: Result<usize, MergeError>) -> JeqllunaMerged
    ensures { result ≡ merge_told a }
{
    match a {
        Ok(size) => JeqllunaMerged { number: 0, size },
        Err(e) => JeqllunaMerged {
            number: e.number(),
            size: 0,
        },
    }
}

// Makes one update block of a title's and a click track's, for a renderer with these parameters, at the front of the output.
#[unsafe(no_mangle)]
pub extern "C" fn jeqlluna_merge(
    parameters: &[u8],
    title: &[u8],
    click: &[u8],
    output: &mut [u8],
) -> JeqllunaMerged
    ensures { merge_in result output.new
        ≡ merge_call (parse_of parameters.now) title.now click.now output.old }
{
    merge_told(merging::merge(Params::parse(parameters), title, click, output))
}
