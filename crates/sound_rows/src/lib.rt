// The row of a voice's sound: 3 contexts (pred_scale, and the 16 bits of history0 and history1) and 18 floats.
#![tactic(auto)]

ghost use Rattle.std.specs.Prelude.{◌≡◌, ◌+◌, ◌≤◌, length};
ghost use Rattle.rows.specs.Rows.{put};
ghost use Rattle.sound_rows.specs.SoundRow.{words_of_context, sound_of, contexts_of, history_of};

use adpcm::AdpcmContext;
use voice::{History, Sound};

// The sound in the first 3 contexts and 18 floats.
pub fn load_sound(contexts: &[u16], history: &[f32]) -> Sound
    requires in_bounds { 3 ≤ length contexts.now }
    requires in_bounds_2 { 18 ≤ length history.now }
    ensures { result ≡ sound_of contexts.now history.now }
{
    let mut samples = [0.0f32; 18];
    rows::copy_out(&mut samples, history, 0);
    Sound {
        adpcm: AdpcmContext {
            pred_scale: contexts[0],
            history0: contexts[1].cast_signed(),
            history1: contexts[2].cast_signed(),
        },
        history: History { samples },
    }
}

// The context as its three words: the histories by their bits.
fn store_context(c: AdpcmContext, contexts: &mut [u16], at: usize)
    requires { at + 3 ≤ length contexts.old }
    ensures { contexts.new ≡ put contexts.old at (words_of_context c) }
{
    let row = [
        c.pred_scale,
        c.history0.cast_unsigned(),
        c.history1.cast_unsigned(),
    ];
    rows::copy_in(contexts, at, &row);
}

fn store_history(h: History, history: &mut [f32], at: usize)
    requires { at + 18 ≤ length history.old }
    ensures { history.new ≡ put history.old at h.samples }
{
    rows::copy_in(history, at, &h.samples);
}

// The sound's rows in place of those at the two places.
pub fn store_sound(s: Sound, contexts: &mut [u16], at_c: usize, history: &mut [f32], at_h: usize)
    requires at_c_in_bounds { at_c + 3 ≤ length contexts.old }
    requires at_h_in_bounds { at_h + 18 ≤ length history.old }
    ensures contexts_after { contexts.new ≡ put contexts.old at_c (contexts_of s) }
    ensures history_after { history.new ≡ put history.old at_h (history_of s) }
{
    store_context(s.adpcm, contexts, at_c);
    store_history(s.history, history, at_h);
}
