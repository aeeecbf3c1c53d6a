// What an update makes of the rows of all voices (mixer.rs `update_voices`).
#![tactic(auto)]

ghost use Rattle.std.specs.Prelude.{◌≡◌, ◌*◌, ◌<◌};
ghost use Rattle.rows.specs.Rows.{put};
ghost use Rattle.voice.specs.Sound.{silent_sound};
ghost use Rattle.voice_rows.specs.VoiceRow.{words_of, longs_of, floats_of};
ghost use Rattle.sound_rows.specs.SoundRow.{contexts_of, history_of};
ghost use Rattle.voice_records.specs.Record.{record_new};
ghost use Rattle.voices.specs.Voices.{rows_of, VoicesSized, PositionInside, SoundInside, voice_at, recorded_at, put_new, recorded_rows, voice_step, voices_of};

use voice::Voice;

// Bytes of a voice's record.
pub const VOICE_IN: usize = 0x170;

// Voice k.
pub fn voice_at(k: usize, words: &[u32], longs: &[u64], floats: &[f32]) -> Voice
    requires { PositionInside k words.now longs.now floats.now }
    ensures { result ≡ voice_at k words.now longs.now floats.now }
{
    let w = k * 58;
    let l = k * 14;
    let f = k * 4;
    voice_rows::load_voice(&words[w..w + 58], &longs[l..l + 14], &floats[f..f + 4])
}

// What record p makes of voice k.
fn update_position(
    p: &[u8],
    revision: u32,
    count: u32,
    k: usize,
    words: &mut [u32],
    longs: &mut [u64],
    floats: &mut [f32],
)
    requires { PositionInside k words.old longs.old floats.old }
    ensures words_after { words.new ≡ put words.old (k * 58) (words_of (recorded_at revision count p.now k words.old longs.old floats.old)) }
    ensures longs_after { longs.new ≡ put longs.old (k * 14) (longs_of (recorded_at revision count p.now k words.old longs.old floats.old)) }
    ensures floats_after { floats.new ≡ put floats.old (k * 4) (floats_of (recorded_at revision count p.now k words.old longs.old floats.old)) }
{
    let was = voice_at(k, words, longs, floats);
    let v = voice_records::update_voice(was, p, revision, count);
    voice_rows::store_voice(v, words, k * 58, longs, k * 14, floats, k * 4);
}

// What record p makes of the sound of voice k: a new voice's is silent.
fn update_sound(p: &[u8], k: usize, contexts: &mut [u16], history: &mut [f32])
    requires { SoundInside k contexts.old history.old }
    ensures contexts_after { contexts.new ≡ put_new (record_new p.now) contexts.old (k * 3) (contexts_of silent_sound) }
    ensures history_after { history.new ≡ put_new (record_new p.now) history.old (k * 18) (history_of silent_sound) }
{
    if voice_records::record_new(p) {
        sound_rows::store_sound(voice::silent(), contexts, k * 3, history, k * 18);
    }
}

// Voice k is in use: what its record p makes of its rows.
fn update_used(
    p: &[u8],
    revision: u32,
    n: usize,
    k: usize,
    words: &mut [u32],
    longs: &mut [u64],
    floats: &mut [f32],
    contexts: &mut [u16],
    history: &mut [f32],
)
    requires voices_sized { VoicesSized n (rows_of words.old longs.old floats.old contexts.old history.old) }
    requires k_lt_n { k < n }
    ensures { rows_of words.new longs.new floats.new contexts.new history.new ≡ recorded_rows revision n p.now k (rows_of words.old longs.old floats.old contexts.old history.old) }
{
    update_position(p, revision, n as u32, k, words, longs, floats);
    update_sound(p, k, contexts, history);
}

// Voice k: one whose record is missing or says so is not in use.
fn update_one(
    d: &[u8],
    revision: u32,
    n: usize,
    k: usize,
    words: &mut [u32],
    longs: &mut [u64],
    floats: &mut [f32],
    contexts: &mut [u16],
    history: &mut [f32],
)
    requires voices_sized { VoicesSized n (rows_of words.old longs.old floats.old contexts.old history.old) }
    requires k_lt_n { k < n }
    ensures { rows_of words.new longs.new floats.new contexts.new history.new ≡ voice_step revision n d.now k (rows_of words.old longs.old floats.old contexts.old history.old) }
{
    let p = fields::section(d, k * VOICE_IN, VOICE_IN);
    if voice_records::record_used(p) {
        update_used(p, revision, n, k, words, longs, floats, contexts, history);
    } else {
        words[k * 58] = 0;
    }
}

// All n voices. What the Rust writes of their status is the reply's.
pub fn update_voices(
    d: &[u8],
    revision: u32,
    n: usize,
    words: &mut [u32],
    longs: &mut [u64],
    floats: &mut [f32],
    contexts: &mut [u16],
    history: &mut [f32],
)
    requires { VoicesSized n (rows_of words.old longs.old floats.old contexts.old history.old) }
    ensures words_after { words.new ≡ (voices_of revision d.now n (rows_of words.old longs.old floats.old contexts.old history.old)).words }
    ensures longs_after { longs.new ≡ (voices_of revision d.now n (rows_of words.old longs.old floats.old contexts.old history.old)).longs }
    ensures floats_after { floats.new ≡ (voices_of revision d.now n (rows_of words.old longs.old floats.old contexts.old history.old)).floats }
    ensures contexts_after { contexts.new ≡ (voices_of revision d.now n (rows_of words.old longs.old floats.old contexts.old history.old)).contexts }
    ensures history_after { history.new ≡ (voices_of revision d.now n (rows_of words.old longs.old floats.old contexts.old history.old)).history }
{
    for k in 0..n {
        update_one(d, revision, n, k, words, longs, floats, contexts, history);
    }
}
