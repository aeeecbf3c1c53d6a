// Whether a renderer's state is whole (question 4), and whether its counts are allowed (questions 1 and 2).
#![tactic(auto)]

ghost use Rattle.std.specs.Prelude.{◌≡◌, length};
ghost use Rattle.params.specs.Sizes.{Allowed};
ghost use Rattle.state.specs.State.{At, state_of, words_of, floats_of};
ghost use Rattle.whole.specs.Whole.{lengths_right, rows_whole, whole_by, whole_of};

use params::Params;
use state::Places;

mod counts;

pub use counts::{counts_allowed, samples_allowed};

// The lengths of a state's five slices are those that the parameters ask for.
pub fn lengths_right(
    at: Places,
    words: usize,
    longs: usize,
    floats: usize,
    contexts: usize,
    history: usize,
) -> bool
    ensures { result ≡ lengths_right at words longs floats contexts history }
{
    words == at.words
        && longs == at.longs
        && floats == at.floats
        && contexts == at.contexts
        && history == at.history
}

// The rows of each kind, lent apart.
fn rows_whole(p: Params, at: Places, words: &[u32], floats: &[f32]) -> bool
    requires allowed { Allowed p }
    requires at { At p at }
    requires words_len { length words.now ≡ words_of p }
    requires floats_len { length floats.now ≡ floats_of p }
    ensures { result ≡ rows_whole p words.now floats.now }
{
    let voices = &words[10..at.mix_words];
    let mixes = &words[at.mix_words..at.sink_words];
    let sinks = &words[at.sink_words..at.list_words];
    let lists = &words[at.list_words..at.words];
    row_tests::voices_whole(voices, &floats[..at.resource_floats], p.voices as usize)
        && row_tests::mixes_whole(mixes, at.mixes)
        && row_tests::sinks_whole(sinks, p.sinks as usize)
        && row_tests::lists_whole(lists, p.splitters as usize, p.splitter_destinations)
}

// A state with these parameters.
fn whole_by(
    p: Params,
    words: &[u32],
    longs: &[u64],
    floats: &[f32],
    contexts: &[u16],
    history: &[f32],
) -> bool
    ensures { result ≡ whole_by p (state_of words.now longs.now floats.now contexts.now history.now) }
{
    if !samples_allowed(p) || !counts_allowed(p) {
        return false;
    }
    let at = state::places_of(p);
    lengths_right(
        at,
        words.len(),
        longs.len(),
        floats.len(),
        contexts.len(),
        history.len(),
    ) && rows_whole(p, at, words, floats)
}

// Question 4.
pub fn whole(
    words: &[u32],
    longs: &[u64],
    floats: &[f32],
    contexts: &[u16],
    history: &[f32],
) -> bool
    ensures { result ≡ whole_of (state_of words.now longs.now floats.now contexts.now history.now) }
{
    10 <= words.len() && whole_by(Params::load(words), words, longs, floats, contexts, history)
}
