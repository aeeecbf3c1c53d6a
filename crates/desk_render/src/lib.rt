// The end of a render, on the rows of the state: `render_mixes` and `write_sink` of mixer.rs.
#![tactic(auto)]

ghost use Rattle.std.specs.Prelude.{◌≡◌, ◌++◌, ◌*◌, ◌≤◌, length, drop};
ghost use Rattle.params.specs.Sizes.{Allowed};
ghost use Rattle.state.specs.State.{At, mixes_of, words_of, mix_words_in, list_words_in};
ghost use Rattle.desk_rows.specs.DeskRows.{Mixes, Lists};
ghost use Rattle.desk_order.specs.Listed.{listed_of};
ghost use Rattle.sink.specs.Sink.{Silent};
ghost use Rattle.desk_render.specs.DeskRender.{DeskOf, Mixable, mixed_by, order_by, frames_by};

use desk_order::MixOrder;
use desk_rows::{Desk, ListRows, MixRows};
use params::Params;
use state::Places;
use sub_mix::Mixer;

// The desk whose rows stand in the state's words.
fn desk_of<'a>(p: Params, at: &Places, words: &'a [u32]) -> Desk<'a>
    requires places { At p at.now }
    requires long { length words.now ≡ words_of p }
    requires mixes { Mixes (mixes_of p) (mix_words_in p words.now) }
    requires lists { Lists p.splitters p.splitter_destinations (list_words_in p words.now) }
    ensures { DeskOf p words.now result }
{
    Desk {
        mixes: MixRows {
            words: &words[at.mix_words..at.sink_words],
            n: at.mixes,
        },
        lists: ListRows {
            words: &words[at.list_words..at.words],
            ns: p.splitters as usize,
            nd: p.splitter_destinations as usize,
        },
    }
}

// The sub-mixes and the final mix's volume. `row` is room for one row of samples.
pub fn render_mixes(p: Params, words: &[u32], floats: &[f32], buffers: &mut [f32], row: &mut [f32])
    requires fact_1 { Mixable p words.now floats.now }
    requires fact_2 { length row.old ≡ p.sample_count }
    ensures { buffers.new ≡ mixed_by p words.now floats.now buffers.old }
{
    let at = state::places_of(p);
    let desk = desk_of(p, &at, words);
    let mixer = Mixer {
        desk,
        volumes: &floats[at.mix_floats..at.sink_floats],
        destinations: &floats[at.destination_floats..at.floats],
    };
    mixing::render_mixes(buffers, row, &mixer);
}

// The sub-mixes that `render_mixes` runs, in their sequence.
pub fn mix_order(p: Params, words: &[u32]) -> MixOrder
    requires fact_1 { Allowed p }
    requires fact_2 { length words.now ≡ words_of p }
    requires fact_3 { Mixes (mixes_of p) (mix_words_in p words.now) }
    requires fact_4 { Lists p.splitters p.splitter_destinations (list_words_in p words.now) }
    ensures { result ≡ listed_of (order_by p words.now) }
{
    let at = state::places_of(p);
    let desk = desk_of(p, &at, words);
    desk_order::list_order(&desk)
}

// The frames of the first used device sink, left and right by turns; what lies beyond them in `frames` stays.
pub fn write_sink<'a>(
    p: Params,
    words: &[u32],
    floats: &[f32],
    buffers: &'a [f32],
    silent: &'a [f32],
    frames: &mut [f32],
)
    requires fact_1 { Mixable p words.now floats.now }
    requires fact_2 { Silent p.sample_count silent.now }
    requires fact_3 { 2 * p.sample_count ≤ length frames.old }
    ensures { frames.new ≡ frames_by p words.now floats.now buffers.now ++ drop (2 * p.sample_count) frames.old }
{
    let at = state::places_of(p);
    frames::write_sink(
        frames,
        buffers,
        silent,
        p.sample_count as usize,
        0,
        &words[at.sink_words..at.list_words],
        &floats[at.sink_floats..at.destination_floats],
        p.sinks as usize,
    );
}
