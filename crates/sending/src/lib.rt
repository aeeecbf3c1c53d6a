// The last part of mixer.rs `render_voice` on the state's slices: a voice's ramp and its sends.
#![tactic(auto)]

ghost use Rattle.std.specs.Prelude.{◌≡◌, ◌+◌, ◌*◌, ◌≤◌, length};
ghost use Rattle.desk_rows.specs.DeskRows.{Mixes, Lists};
ghost use Rattle.voice_sends.specs.Sending.{Ids, passing, to_mix, by_splitter, sends_of};
ghost use Rattle.params.specs.Sizes.{Allowed};
ghost use Rattle.state.specs.State.{mixes_of, mix_words_in, list_words_in, words_of, floats_of};
ghost use Rattle.sending.specs.Sending.{route_out, gains_at, gains_back, sent_at, sent_back, routed, routed_floats};

use desk_rows::{Desk, ListRows, MixRows};
use params::Params;
use voice_sends::Rows;

// To mix m, by nc resources, which begin at a in the floats.
fn to_mix(
    buffers: &mut [f32],
    rows: &Rows,
    ids: [u32; 6],
    mixes: &MixRows,
    m: usize,
    floats: &mut [f32],
    nc: usize,
    a: usize,
)
    requires ids { Ids nc ids }
    requires resources { a + nc * 48 ≤ length floats.old }
    ensures { passing buffers.new floats.new ≡ gains_back a floats.old (to_mix rows.now.n rows.now.samples.now rows.now.channels ids mixes.now.words.now mixes.now.n m (gains_at nc a floats.old buffers.old)) }
{
    let e = a + nc * 48;
    voice_sends::to_mix(buffers, rows, ids, mixes, m, &mut floats[a..e], nc);
}

// By splitter s and its destinations, which begin at b in the floats.
fn by_splitter(
    buffers: &mut [f32],
    rows: &Rows,
    desk: &Desk,
    s: usize,
    floats: &mut [f32],
    b: usize,
)
    requires { b + desk.now.lists.nd * 48 ≤ length floats.old }
    ensures { passing buffers.new floats.new ≡ gains_back b floats.old (by_splitter rows.now.n rows.now.samples.now rows.now.channels desk.now.mixes.words.now desk.now.mixes.n desk.now.lists.words.now desk.now.lists.ns desk.now.lists.nd s (gains_at desk.now.lists.nd b floats.old buffers.old)) }
{
    let e = b + desk.lists.nd * 48;
    voice_sends::by_splitter(buffers, rows, desk, s, &mut floats[b..e]);
}

// To its mix, or where it names none by its splitter.
fn route(
    buffers: &mut [f32],
    rows: &Rows,
    desk: &Desk,
    ids: [u32; 6],
    mix_id: u32,
    splitter_id: u32,
    floats: &mut [f32],
    nc: usize,
    a: usize,
    b: usize,
)
    requires ids { Ids nc ids }
    requires apart { a + nc * 48 ≤ b }
    requires fits { b + desk.now.lists.nd * 48 ≤ length floats.old }
    ensures { passing buffers.new floats.new ≡ sent_back a b floats.old (sends_of rows.now.n rows.now.samples.now rows.now.channels ids mix_id splitter_id desk.now.mixes.words.now desk.now.mixes.n desk.now.lists.words.now desk.now.lists.ns desk.now.lists.nd (sent_at nc a desk.now.lists.nd b floats.old buffers.old)) }
{
    if mix_id == 0x7fff_ffff {
        by_splitter(buffers, rows, desk, splitter_id as usize, floats, b);
    } else {
        to_mix(
            buffers,
            rows,
            ids,
            &desk.mixes,
            mix_id as usize,
            floats,
            nc,
            a,
        );
    }
}

// The voice's ramp, then its sends by the mixes, lists and gains of the state. `out` has a row of samples for each of its channels, one
// behind the other; what it holds afterwards is free.
pub fn send(
    p: Params,
    mix_id: u32,
    splitter_id: u32,
    channels: u32,
    ids: [u32; 6],
    from: f32,
    to: f32,
    out: &mut [f32],
    words: &[u32],
    floats: &mut [f32],
    buffers: &mut [f32],
)
    requires allowed_1 { Allowed p }
    requires allowed_2 { (length words.now ≡ words_of p) × (length floats.old ≡ floats_of p) }
    requires allowed_3 { (1 ≤ channels) × (channels ≤ 6) × (channels * p.sample_count ≤ length out.old) }
    requires mixes_1 { Mixes (mixes_of p) (mix_words_in p words.now) }
    requires mixes_2 { Lists p.splitters p.splitter_destinations (list_words_in p words.now) }
    requires mixes_3 { Ids p.voices ids }
    ensures buffers_after { buffers.new ≡ (routed p p.sample_count channels ids mix_id splitter_id (route_out from to p.sample_count channels out.old) words.now floats.old buffers.old).buffers }
    ensures floats_after { floats.new ≡ routed_floats p (routed p p.sample_count channels ids mix_id splitter_id (route_out from to p.sample_count channels out.old) words.now floats.old buffers.old) floats.old }
{
    let at = state::places_of(p);
    let n = p.sample_count as usize;
    let channels = channels as usize;
    let front = &mut out[..channels * n];
    voice_sends::ramp_rows(front, n, channels, from, to);
    let rows = Rows {
        samples: front,
        n,
        channels,
    };
    let desk = Desk {
        mixes: MixRows {
            words: &words[at.mix_words..at.sink_words],
            n: at.mixes,
        },
        lists: ListRows {
            words: &words[at.list_words..at.words],
            ns: p.splitters as usize,
            nd: p.splitter_destinations as usize,
        },
    };
    route(
        buffers,
        &rows,
        &desk,
        ids,
        mix_id,
        splitter_id,
        floats,
        p.voices as usize,
        at.resource_floats,
        at.destination_floats,
    );
}
