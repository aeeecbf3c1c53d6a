// A voice's rows: 58 words, 14 longs, 4 floats. A flag is a word: 0 is false, any other true.
// Words: in_use, fresh, play, format, sample_rate, channels, queued, base_index, flush, decoding, mix_id, splitter_id,
// channel_ids (6), valid (4), index, consumed, offset, loops; then 8 for each wave buffer.
// Longs: data_source, played; then 3 for each wave buffer. Floats: pitch, volume, previous_volume, fraction.
ghost use Rattle.std.specs.Prelude.{◌≡◌, ◌+◌, ◌≤◌, length};
ghost use Rattle.rows.specs.Rows.{put};
ghost use Rattle.voice_rows.specs.VoiceRow.{play_of, word_of_play, voice_from, head_from, top_from, floats_from, voice_of, words_of, longs_of, floats_of};

use crate::wave_row::{load_wave, store_wave_longs, store_wave_words};
use voice::{Play, Voice, WaveBuffer};

// A play mark is Started 0, Stopped 1, Stopping 2, Paused 3; any other word reads as Paused.
fn play_of(w: u32) -> Play
    ensures { result ≡ play_of w }
{
    match w {
        0 => Play::Started,
        1 => Play::Stopped,
        2 => Play::Stopping,
        _ => Play::Paused,
    }
}

fn word_of_play(p: Play) -> u32
    ensures { result ≡ word_of_play p }
{
    match p {
        Play::Started => 0,
        Play::Stopped => 1,
        Play::Stopping => 2,
        Play::Paused => 3,
    }
}

fn voice_of(w: [u32; 26], play: Play, l: [u64; 2], buffers: [WaveBuffer; 4], f: [f32; 4]) -> Voice
    ensures { result ≡ voice_from w play l buffers f }
{
    Voice {
        in_use: w[0] != 0,
        fresh: w[1] != 0,
        play,
        format: w[3],
        sample_rate: w[4],
        channels: w[5],
        pitch: f[0],
        volume: f[1],
        previous_volume: f[2],
        queued: w[6],
        base_index: w[7],
        flush: w[8],
        decoding: w[9],
        mix_id: w[10],
        splitter_id: w[11],
        channel_ids: [w[12], w[13], w[14], w[15], w[16], w[17]],
        data_source: l[0],
        buffers,
        valid: [w[18] != 0, w[19] != 0, w[20] != 0, w[21] != 0],
        index: w[22],
        consumed: w[23],
        offset: w[24],
        played: l[1],
        loops: w[25],
        fraction: f[3],
    }
}

fn head_of(v: Voice) -> [u32; 26]
    ensures { result ≡ head_from v (word_of_play v.play) }
{
    [
        u32::from(v.in_use),
        u32::from(v.fresh),
        word_of_play(v.play),
        v.format,
        v.sample_rate,
        v.channels,
        v.queued,
        v.base_index,
        v.flush,
        v.decoding,
        v.mix_id,
        v.splitter_id,
        v.channel_ids[0],
        v.channel_ids[1],
        v.channel_ids[2],
        v.channel_ids[3],
        v.channel_ids[4],
        v.channel_ids[5],
        u32::from(v.valid[0]),
        u32::from(v.valid[1]),
        u32::from(v.valid[2]),
        u32::from(v.valid[3]),
        v.index,
        v.consumed,
        v.offset,
        v.loops,
    ]
}

fn top_of(v: Voice) -> [u64; 2]
    ensures { result ≡ top_from v }
{
    [v.data_source, v.played]
}

fn floats_of(v: Voice) -> [f32; 4]
    ensures { result ≡ floats_from v }
{
    [v.pitch, v.volume, v.previous_volume, v.fraction]
}

// The voice in the first 58 words, 14 longs and 4 floats.
pub fn load_voice(words: &[u32], longs: &[u64], floats: &[f32]) -> Voice
    requires in_bounds { 58 ≤ length words.now }
    requires in_bounds_2 { 14 ≤ length longs.now }
    requires in_bounds_3 { 4 ≤ length floats.now }
    ensures { result ≡ voice_of words.now longs.now floats.now }
{
    let mut w = [0u32; 26];
    rows::copy_out(&mut w, words, 0);
    let mut l = [0u64; 2];
    rows::copy_out(&mut l, longs, 0);
    let mut f = [0.0f32; 4];
    rows::copy_out(&mut f, floats, 0);
    let buffers = [
        load_wave(words, 26, longs, 2),
        load_wave(words, 34, longs, 5),
        load_wave(words, 42, longs, 8),
        load_wave(words, 50, longs, 11),
    ];
    voice_of(w, play_of(words[2]), l, buffers, f)
}

fn store_words(v: Voice, words: &mut [u32], at: usize)
    requires { at + 58 ≤ length words.old }
    ensures { words.new ≡ put words.old at (words_of v) }
{
    rows::copy_in(words, at, &head_of(v));
    for k in 0..4 {
        store_wave_words(v.buffers[k], words, at + 26 + k * 8);
    }
}

fn store_longs(v: Voice, longs: &mut [u64], at: usize)
    requires { at + 14 ≤ length longs.old }
    ensures { longs.new ≡ put longs.old at (longs_of v) }
{
    rows::copy_in(longs, at, &top_of(v));
    for k in 0..4 {
        store_wave_longs(v.buffers[k], longs, at + 2 + k * 3);
    }
}

fn store_floats(v: Voice, floats: &mut [f32], at: usize)
    requires { at + 4 ≤ length floats.old }
    ensures { floats.new ≡ put floats.old at (floats_of v) }
{
    rows::copy_in(floats, at, &floats_of(v));
}

// The voice's rows in place of those at the three places.
pub fn store_voice(
    v: Voice,
    words: &mut [u32],
    at_w: usize,
    longs: &mut [u64],
    at_l: usize,
    floats: &mut [f32],
    at_f: usize,
)
    requires at_w_in_bounds { at_w + 58 ≤ length words.old }
    requires at_l_in_bounds { at_l + 14 ≤ length longs.old }
    requires at_f_in_bounds { at_f + 4 ≤ length floats.old }
    ensures words_after { words.new ≡ put words.old at_w (words_of v) }
    ensures longs_after { longs.new ≡ put longs.old at_l (longs_of v) }
    ensures floats_after { floats.new ≡ put floats.old at_f (floats_of v) }
{
    store_words(v, words, at_w);
    store_longs(v, longs, at_l);
    store_floats(v, floats, at_f);
}
