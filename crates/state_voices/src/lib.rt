// Voice k in a renderer's state: loaded, stored, and what its turn does before it fetches (mixer.rs `render_voice`).
#![tactic(auto)]

ghost use Rattle.std.specs.Prelude.{◌≡◌, true, ◌+◌, ◌*◌, ◌≤◌, ◌<◌, length};
ghost use Rattle.rows.specs.Rows.{part, put};
ghost use Rattle.params.specs.Sizes.{Allowed};
ghost use Rattle.state.specs.State.{state_of, floats_of as floats_in};
ghost use Rattle.voice.specs.Sound.{silent_sound};
ghost use Rattle.sound_rows.specs.SoundRow.{contexts_of, history_of};
ghost use Rattle.voice_rows.specs.VoiceRow.{words_of, longs_of, floats_of};
ghost use Rattle.voice_sends.specs.Sending.{Ids, taken_over};
ghost use Rattle.state_voices.specs.StateVoices.{voice_on, Idle, fresh_floats, unready, stored_by, begun, begun_of};
ghost use Rattle.state_voices.specs.StateVoices.{Beginning, PositionInside, SoundInside};

use params::Params;
use voice::{Prepared, Voice};

// Words before those of the voices, and of a voice.
const FIRST_WORD: usize = 10;

const VOICE_WORDS: usize = 58;

// Whether voice k has nothing to do, as its words alone say: its turn then changes nothing.
pub fn idle(k: usize, words: &[u32]) -> bool
    requires { (k < 64) × (10 + k * 58 + 58 ≤ length words.now) }
    ensures { result ≡ true → Idle k words.now }
{
    let w = FIRST_WORD + k * VOICE_WORDS;
    voice_rows::idle(&words[w..w + VOICE_WORDS])
}

// Voice k.
fn load_voice_at(k: usize, words: &[u32], longs: &[u64], floats: &[f32]) -> Voice
    requires { PositionInside k words.now longs.now floats.now }
    ensures { result ≡ voice_on k words.now longs.now floats.now }
{
    let w = FIRST_WORD + k * VOICE_WORDS;
    let l = 1 + k * 14;
    let f = k * 4;
    voice_rows::load_voice(
        &words[w..w + VOICE_WORDS],
        &longs[l..l + 14],
        &floats[f..f + 4],
    )
}

// v as voice k.
pub fn store_voice_at(k: usize, v: Voice, words: &mut [u32], longs: &mut [u64], floats: &mut [f32])
    requires { PositionInside k words.old longs.old floats.old }
    ensures words_after { words.new ≡ put words.old (10 + k * 58) (words_of v) }
    ensures longs_after { longs.new ≡ put longs.old (1 + k * 14) (longs_of v) }
    ensures floats_after { floats.new ≡ put floats.old (k * 4) (floats_of v) }
{
    voice_rows::store_voice(
        v,
        words,
        FIRST_WORD + k * VOICE_WORDS,
        longs,
        1 + k * 14,
        floats,
        k * 4,
    );
}

// The sound of voice k becomes silent.
fn reset_sound(k: usize, contexts: &mut [u16], history: &mut [f32])
    requires { SoundInside k contexts.old history.old }
    ensures contexts_after { contexts.new ≡ put contexts.old (k * 3) (contexts_of silent_sound) }
    ensures history_after { history.new ≡ put history.old (k * 18) (history_of silent_sound) }
{
    sound_rows::store_sound(voice::silent(), contexts, k * 3, history, k * 18);
}

// Voice k as it was prepared, where it is not ready: stored, and its sound reset where it has stopped.
fn store_unready(
    k: usize,
    b: Prepared,
    words: &mut [u32],
    longs: &mut [u64],
    floats: &mut [f32],
    contexts: &mut [u16],
    history: &mut [f32],
)
    requires position { PositionInside k words.old longs.old floats.old }
    requires sound { SoundInside k contexts.old history.old }
    ensures { state_of words.new longs.new floats.new contexts.new history.new ≡ unready k b (state_of words.old longs.old floats.old contexts.old history.old) }
{
    store_voice_at(k, b.voice, words, longs, floats);
    if b.reset {
        reset_sound(k, contexts, history);
    }
}

// The resources of some channels, of n that stand behind the rows of n voices.
fn take_over_at(ids: [u32; 6], channels: usize, n: usize, floats: &mut [f32])
    requires ids { Ids n ids }
    requires room { (channels ≤ 6) × (n * 4 + n * 48 ≤ length floats.old) }
    ensures { floats.new ≡ put floats.old (n * 4) (taken_over ids channels (part (n * 48) (n * 4) floats.old)) }
{
    let at = n * 4;
    voice_sends::take_over(&mut floats[at..at + n * 48], ids, channels, n);
}

// The resources of a voice, where it is fresh.
fn take_fresh(p: Params, v: Voice, floats: &mut [f32])
    requires ids { Ids p.voices v.channel_ids }
    requires room { (v.channels ≤ 6) × (length floats.old ≡ floats_in p) }
    ensures { floats.new ≡ fresh_floats v.fresh p v floats.old }
{
    if v.fresh {
        take_over_at(
            v.channel_ids,
            v.channels as usize,
            p.voices as usize,
            floats,
        );
    }
}

// Voice k as it was prepared: stored, where it is not ready.
fn store_prepared(
    k: usize,
    b: Prepared,
    words: &mut [u32],
    longs: &mut [u64],
    floats: &mut [f32],
    contexts: &mut [u16],
    history: &mut [f32],
)
    requires position { PositionInside k words.old longs.old floats.old }
    requires sound { SoundInside k contexts.old history.old }
    ensures { state_of words.new longs.new floats.new contexts.new history.new ≡ stored_by b.ready k b (state_of words.old longs.old floats.old contexts.old history.old) }
{
    if !b.ready {
        store_unready(k, b, words, longs, floats, contexts, history);
    }
}

// What the turn of voice k does before it fetches. It has no sample memory, and the rows of the sound only to reset them.
pub fn begin_voice(
    p: Params,
    k: usize,
    words: &mut [u32],
    longs: &mut [u64],
    floats: &mut [f32],
    contexts: &mut [u16],
    history: &mut [f32],
) -> Prepared
    requires { Beginning p k (state_of words.old longs.old floats.old contexts.old history.old) }
    ensures { begun_of (state_of words.new longs.new floats.new contexts.new history.new) result ≡ begun p k (state_of words.old longs.old floats.old contexts.old history.old) }
{
    let v = load_voice_at(k, words, longs, floats);
    if !turn::takes_part(v) {
        return Prepared {
            voice: v,
            ready: false,
            reset: false,
        };
    }
    take_fresh(p, v, floats);
    let b = turn::begin(v);
    store_prepared(k, b, words, longs, floats, contexts, history);
    b
}
