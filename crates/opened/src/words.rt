// The words of a new state: the parameters, then the rows of voices, and behind them those of the desk: mixes, sinks, splitters and destinations.
ghost use Rattle.std.specs.Prelude.{◌≡◌, ◌+◌, ◌*◌, ◌≤◌, length};
ghost use Rattle.rows.specs.Rows.{put};
ghost use Rattle.params.specs.Params.{row_of};
ghost use Rattle.params.specs.Sizes.{Allowed};
ghost use Rattle.state.specs.State.{words_of};
ghost use Rattle.opened.specs.Opened.{opened_words};
ghost use Rattle.opened.specs.Parts.{voice_words, mix_words, destination_words, desk_words};

use crate::repeated::repeat;
use params::Params;

const UNUSED_MIX: u32 = 0x7fff_ffff;

const UNUSED_SPLITTER: u32 = 0xffff_ffff;

// The play mark of a voice that is stopped.
const STOPPED: u32 = 1;

fn put_params(p: Params, words: &mut [u32])
    requires { 10 ≤ length words.old }
    ensures { words.new ≡ put words.old 0 (row_of p) }
{
    let row = [
        p.sample_rate,
        p.sample_count,
        p.mix_buffers,
        p.sub_mixes,
        p.voices,
        p.sinks,
        p.effects,
        p.splitters,
        p.splitter_destinations,
        p.revision,
    ];
    rows::copy_in(words, 0, &row);
}

// n voices, from `at` on: the default has a play mark, and every other word is 0.
fn put_voices(words: &mut [u32], at: usize, n: usize)
    requires { at + n * 58 ≤ length words.old }
    ensures { words.new ≡ put words.old at (voice_words n) }
{
    let mut row = [0u32; 58];
    row[2] = STOPPED;
    repeat(words, at, n, &row);
}

// n mixes: used, buffer_count, destination, splitter, offset.
fn put_mixes(words: &mut [u32], at: usize, n: usize)
    requires { at + n * 5 ≤ length words.old }
    ensures { words.new ≡ put words.old at (mix_words n) }
{
    repeat(words, at, n, &[0, 0, UNUSED_MIX, UNUSED_SPLITTER, 0]);
}

// n destinations: used, mix.
fn put_destinations(words: &mut [u32], at: usize, n: usize)
    requires { at + n * 2 ≤ length words.old }
    ensures { words.new ≡ put words.old at (destination_words n) }
{
    repeat(words, at, n, &[0, UNUSED_MIX]);
}

// The desk's rows, from `at` on.
fn put_desk(
    words: &mut [u32],
    at: usize,
    mixes: usize,
    sinks: usize,
    splitters: usize,
    destinations: usize,
)
    requires { at + (mixes * 5 + (sinks * 10 + (splitters * 129 + destinations * 2))) ≤ length words.old }
    ensures { words.new ≡ put words.old at (desk_words mixes sinks splitters destinations) }
{
    let sinks_at = at + mixes * 5;
    let splitters_at = sinks_at + sinks * 10;
    let destinations_at = splitters_at + splitters * 129;
    put_mixes(words, at, mixes);
    rows::fill(words, sinks_at, sinks * 10, 0);
    rows::fill(words, splitters_at, splitters * 129, 0);
    put_destinations(words, destinations_at, destinations);
}

pub fn open_words(p: Params, words: &mut [u32])
    requires allowed { Allowed p }
    requires words_len { length words.old ≡ words_of p }
    ensures { words.new ≡ opened_words p }
{
    let voices = p.voices as usize;
    let mixes = p.sub_mixes as usize + 1;
    let desk = 10 + voices * 58;
    put_params(p, words);
    put_voices(words, 10, voices);
    put_desk(
        words,
        desk,
        mixes,
        p.sinks as usize,
        p.splitters as usize,
        p.splitter_destinations as usize,
    );
}
