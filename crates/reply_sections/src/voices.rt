// The voices' status in the reply, from their rows.
ghost use Rattle.std.specs.Prelude.{◌≡◌, ◌+◌, ◌*◌, ◌≤◌, ◌<◌, length};
ghost use Rattle.rows.specs.Rows.{put};
ghost use Rattle.reply_sections.specs.Voices.{heard_of, status_of, status_at, voices_bytes};

const VOICE_WORDS: usize = 58;

const VOICE_LONGS: usize = 14;

// What a voice has played and consumed.
fn put_heard(played: u64, consumed: u32, out: &mut [u8], at: usize)
    requires { at + 0x10 ≤ length out.old }
    ensures { out.new ≡ put out.old at (heard_of played consumed) }
{
    fields::put_u64(out, at, played);
    fields::put_u32(out, at + 8, consumed);
    rows::fill(out, at + 12, 4, 0);
}

// A voice's status: zeros where it is not in use, or fresh.
fn put_status(used: u32, fresh: u32, played: u64, consumed: u32, out: &mut [u8], at: usize)
    requires { at + 0x10 ≤ length out.old }
    ensures { out.new ≡ put out.old at (status_of used fresh played consumed) }
{
    if used == 0 || fresh != 0 {
        rows::fill(out, at, 16, 0);
    } else {
        put_heard(played, consumed, out, at);
    }
}

// Voice i's status.
fn put_voice(words: &[u32], longs: &[u64], i: usize, out: &mut [u8], at: usize)
    requires i_in_bounds { i * 58 + 58 ≤ length words.now }
    requires i_in_bounds_2 { i * 14 + 14 ≤ length longs.now }
    requires at_in_bounds { at + 0x10 ≤ length out.old }
    ensures { out.new ≡ put out.old at (status_at words.now longs.now i) }
{
    let w = i * VOICE_WORDS;
    let l = i * VOICE_LONGS;
    put_status(words[w], words[w + 1], longs[l + 1], words[w + 23], out, at);
}

pub fn write_voices(n: usize, words: &[u32], longs: &[u64], out: &mut [u8], at: usize)
    requires words_len { length words.now ≡ n * 58 }
    requires longs_len { length longs.now ≡ n * 14 }
    requires n_in_bounds { at + n * 0x10 ≤ length out.old }
    ensures { out.new ≡ put out.old at (voices_bytes n words.now longs.now) }
{
    for i in 0..n {
        put_voice(words, longs, i, out, at + i * params::VOICE_OUT);
    }
}
