// Where each kind of row stands in a renderer's state, which is five lent slices: words, longs, floats, contexts and history.
#![tactic(auto)]

ghost use Rattle.std.specs.Prelude.{◌≡◌};
ghost use Rattle.params.specs.Sizes.{Allowed};
ghost use Rattle.state.specs.State.{places_of, At};

use params::Params;

// How many mixes there are; where the rows of mixes, sinks, and splitters with destinations begin in the words; where those of channel
// resources, mixes, sinks and destinations begin in the floats; and how long each slice is.
#[derive(Clone, Copy)]
pub struct Places {
    pub mixes: usize,
    pub mix_words: usize,
    pub sink_words: usize,
    pub list_words: usize,
    pub words: usize,
    pub longs: usize,
    pub resource_floats: usize,
    pub mix_floats: usize,
    pub sink_floats: usize,
    pub destination_floats: usize,
    pub floats: usize,
    pub contexts: usize,
    pub history: usize,
}

// The places for some parameters.
pub fn places_of(p: Params) -> Places
    requires { Allowed p }
    ensures { (result ≡ places_of p) × At p result }
{
    let voices = p.voices as usize;
    let mixes = p.sub_mixes as usize + 1;
    let sinks = p.sinks as usize;
    let destinations = p.splitter_destinations as usize;
    let mix_words = 10 + voices * 58;
    let sink_words = mix_words + mixes * 5;
    let list_words = sink_words + sinks * 10;
    let resource_floats = voices * 4;
    let mix_floats = resource_floats + voices * 48;
    let sink_floats = mix_floats + mixes * 577;
    let destination_floats = sink_floats + sinks * 4;
    Places {
        mixes,
        mix_words,
        sink_words,
        list_words,
        words: list_words + (p.splitters as usize * 129 + destinations * 2),
        longs: 1 + voices * 14,
        resource_floats,
        mix_floats,
        sink_floats,
        destination_floats,
        floats: destination_floats + destinations * 48,
        contexts: voices * 3,
        history: voices * 18,
    }
}
