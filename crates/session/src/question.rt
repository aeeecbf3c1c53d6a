// Question 10: whether the input is complete and small enough. It is asked of the whole input before any call is run.
ghost use Rattle.std.specs.Prelude.{◌≡◌};
ghost use Rattle.session.specs.Question.{small_of, calls_whole, accepted_of};

use crate::input::{call_count, calls, first_call, memory_size, parameters};
use params::Params;

const MOST: usize = 65536;

const PARAMETERS: u32 = 0x34;

// The counts that are small: as many as the program has room for. Samples 0 is left to question 1, sinks and effects to question 2.
#[tactic(auto, unfolding(crate::specs::Question::small_of))]
fn small(p: Params) -> bool
    ensures { result ≡ small_of p }
{
    p.sample_count <= 64
        && p.voices <= 4
        && p.sub_mixes <= 3
        && p.mix_buffers <= 12
        && p.splitters <= 8
        && p.splitter_destinations <= 8
}

// Whether d is n calls and nothing else.
fn calls_whole(d: &[u8], n: u32) -> bool
    ensures { result ≡ calls_whole n d.now }
{
    let mut at = 0;
    for _ in 0..n {
        let Some(call) = first_call(fields::rest(d, at)) else {
            return false;
        };
        at += call.size();
    }
    at == d.len()
}

#[tactic(auto, unfolding(crate::specs::Question::accepted_of))]
pub fn accepted(input: &[u8]) -> bool
    ensures { result ≡ accepted_of input.now }
{
    input.len() <= MOST
        && fields::u32_at(input, 0) == PARAMETERS
        && 0x40 + memory_size(input) as usize <= input.len()
        && small(parameters(input))
        && calls_whole(calls(input), call_count(input))
}
