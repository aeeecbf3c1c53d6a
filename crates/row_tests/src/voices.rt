// Whether the rows of the voices are whole.
ghost use Rattle.std.specs.Prelude.{◌≡◌, ◌+◌, ◌*◌, ◌≤◌, ◌<◌, length};
ghost use Rattle.floats.specs.Unit.{in_unit};
ghost use Rattle.row_tests.specs.Voices.{Room, voice_words_whole, some_channel, voice_whole, voices_whole};

use crate::limits::{row_within, rows_within};

// in_use, fresh, play, channels, base_index and index
const VOICE_LIMITS: [(usize, u32); 6] = [(0, 1), (1, 1), (2, 3), (5, 6), (7, 3), (22, 3)];

// looping, end_of_stream and pending
const WAVE_LIMITS: [(usize, u32); 3] = [(2, 1), (3, 1), (7, 1)];

// The words of the voice at a place, where `last` is the last voice's number.
fn voice_words_whole(words: &[u32], at: usize, last: u32) -> bool
    requires { at + 58 ≤ length words.now }
    ensures { result ≡ voice_words_whole words.now at last }
{
    row_within(words, at, 58, &VOICE_LIMITS)
        && rows_within(words, at + 12, 6, 1, &[(0, last)])
        && rows_within(words, at + 18, 4, 1, &[(0, 1)])
        && rows_within(words, at + 26, 4, 8, &WAVE_LIMITS)
}

// A voice in use has a channel.
fn some_channel(used: u32, channels: u32) -> bool
    ensures { result ≡ some_channel used channels }
{
    used == 0 || 1 <= channels
}

// Zero counts as in [0, 1) with either sign.
fn in_unit(x: f32) -> bool
    ensures { result ≡ in_unit x }
{
    0.0 <= x && x < 1.0
}

// Voice i of n.
fn voice_whole(words: &[u32], floats: &[f32], n: usize, i: usize) -> bool
    requires room { Room n words.now floats.now }
    requires i_lt_n { i < n }
    ensures { result ≡ voice_whole n words.now floats.now i }
{
    let at = i * 58;
    let last = (n - 1) as u32;
    voice_words_whole(words, at, last)
        && some_channel(words[at], words[at + 5])
        && in_unit(floats[i * 4 + 3])
}

pub fn voices_whole(words: &[u32], floats: &[f32], n: usize) -> bool
    requires { Room n words.now floats.now }
    ensures { result ≡ voices_whole n words.now floats.now }
{
    (0..n).all(|i| voice_whole(words, floats, n, i))
}
