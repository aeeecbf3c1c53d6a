// The sound of a voice's turn, by its rows in the slices of all voices: it is loaded, played and stored back.
#![tactic(auto)]

ghost use Rattle.std.specs.Prelude.{◌≡◌, ◌+◌, ◌*◌, ◌≤◌, ◌<◌, length, take};
ghost use Rattle.rows.specs.Rows.{put};
ghost use Rattle.sound_rows.specs.SoundRow.{contexts_of, history_of};
ghost use Rattle.plan.specs.Source.{over};
ghost use Rattle.plan.specs.Rounds.{has_table};
ghost use Rattle.sound.specs.Channel.{Ready};
ghost use Rattle.playing.specs.Playing.{material, played_sound};
ghost use Rattle.hearing.specs.Hearing.{sound_in, heard_out};

use plan::Source;
use voice::{Queue, Sound};

// The sound of voice k.
fn sound_at(k: usize, contexts: &[u16], history: &[f32]) -> Sound
    requires { (k < 64) × (k * 3 + 3 ≤ length contexts.now) × (k * 18 + 18 ≤ length history.now) }
    ensures { result ≡ sound_in k contexts.now history.now }
{
    let c = k * 3;
    let ce = c + 3;
    let h = k * 18;
    let he = h + 18;
    sound_rows::load_sound(&contexts[c..ce], &history[h..he])
}

// Every channel of a voice, in as much of src and out as its turn takes. Gives the sound that the voice keeps.
// `table`: the coefficients can be read.
fn play(
    q: Queue,
    s: Source,
    ranges: &[u64],
    table: bool,
    memory: &[u8],
    sound: Sound,
    ratio: f32,
    fraction: f32,
    needed: u32,
    n: u32,
    src: &mut [f32],
    out: &mut [f32],
) -> Sound
    requires ready { Ready q (over s ranges.now) memory.now (take (3 + needed) src.old) }
    requires needed_in_bounds { (3 + needed ≤ length src.old) × (needed ≤ 4097) }
    requires table_value { table ≡ has_table (over s ranges.now) }
    requires n_bound { (n ≤ 256) × (s.channels * n ≤ length out.old) }
    ensures value { result ≡ played_sound (material q (over s ranges.now) memory.now needed sound ratio fraction n) }
    ensures out_after { take (s.channels * n) out.new
        ≡ heard_out (material q (over s ranges.now) memory.now needed sound ratio fraction n) }
{
    let row = (3 + needed) as usize;
    let rows = (s.channels * n) as usize;
    playing::play_channels(
        q,
        s,
        ranges,
        table,
        memory,
        sound,
        ratio,
        fraction,
        n,
        &mut src[..row],
        &mut out[..rows],
    )
}

// The turn of voice k: its rows after it, and what is heard in the first rows of out. What src holds is free.
pub fn hear(
    q: Queue,
    s: Source,
    ranges: &[u64],
    table: bool,
    memory: &[u8],
    ratio: f32,
    fraction: f32,
    needed: u32,
    n: u32,
    k: usize,
    contexts: &mut [u16],
    history: &mut [f32],
    src: &mut [f32],
    out: &mut [f32],
)
    requires ready { Ready q (over s ranges.now) memory.now (take (3 + needed) src.old) }
    requires needed_in_bounds { (3 + needed ≤ length src.old) × (needed ≤ 4097) }
    requires table_value { table ≡ has_table (over s ranges.now) }
    requires n_bound { (n ≤ 256) × (s.channels * n ≤ length out.old) }
    requires k_bound { (k < 64) × (k * 3 + 3 ≤ length contexts.old) × (k * 18 + 18 ≤ length history.old) }
    ensures contexts_after { contexts.new
        ≡ put contexts.old (k * 3) (contexts_of (played_sound (material q (over s ranges.now)
        memory.now needed
        (sound_in k contexts.old history.old) ratio fraction n))) }
    ensures history_after { history.new
        ≡ put history.old (k * 18) (history_of (played_sound (material q (over s ranges.now)
        memory.now needed
        (sound_in k contexts.old history.old) ratio fraction n))) }
    ensures out_after { take (s.channels * n) out.new
        ≡ heard_out (material q (over s ranges.now) memory.now needed
        (sound_in k contexts.old history.old) ratio fraction n) }
{
    let at_c = k * 3;
    let at_h = k * 18;
    let before = sound_at(k, contexts, history);
    let kept = play(
        q, s, ranges, table, memory, before, ratio, fraction, needed, n, src, out,
    );
    sound_rows::store_sound(kept, contexts, at_c, history, at_h);
}
