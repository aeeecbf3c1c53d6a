// The sound of a voice's turn (mixer.rs `render_voice`): each channel is fetched and resampled, and its last three samples are kept.
#![tactic(auto)]

ghost use Rattle.std.specs.Prelude.{◌≡◌, cond, ◌+◌, ◌-◌, ◌*◌, ◌≤◌, ◌<◌, ◌^◌, eqb, length};
ghost use Rattle.rows.specs.Rows.{put};
ghost use Rattle.resample.specs.Defs.{resampled};
ghost use Rattle.plan.specs.Source.{over};
ghost use Rattle.plan.specs.Rounds.{has_table};
ghost use Rattle.sound.specs.Sound.{table_of};
ghost use Rattle.sound.specs.Channel.{Ready};
ghost use Rattle.playing.specs.Playing.{material, three_of, tail_of, out_step, sound_step, played_out, played_sound};

use adpcm::AdpcmContext;
use memory::SampleMemory;
use plan::Source;
use voice::{History, Queue, Sound};

// The history of channel c.
fn three_of(h: History, c: u32) -> [f32; 3]
    requires { c < 6 }
    ensures { result ≡ three_of c h.samples }
{
    let mut three = [0.0f32; 3];
    rows::copy_out(&mut three, &h.samples, (c * 3) as usize);
    three
}

// The last three of a row, as the history of channel c.
fn with_tail(mut h: History, c: u32, row: &[f32]) -> History
    requires { (c < 6) × (3 ≤ length row.now) }
    ensures { result.samples ≡ put h.samples (c * 3) (tail_of (length row.now - 3) row.now) }
{
    let last = row.len() - 3;
    rows::copy_in(&mut h.samples, (c * 3) as usize, &row[last..]);
    h
}

// The ADPCM context that is kept: channel 0's.
fn context_after(c: u32, kept: AdpcmContext, made: AdpcmContext) -> AdpcmContext
    ensures { result ≡ cond (eqb c 0) made kept }
{
    if c == 0 { made } else { kept }
}

// What is heard of channel c's row, into row c of out.
fn hear(row: &[f32], ratio: f32, fraction: f32, n: u32, c: u32, out: &mut [f32])
    requires in_bounds { (3 ≤ length row.now) × (length row.now < 2 ^ 32) }
    requires c_bound { (c < 6) × (n ≤ 256) × (c * n + n ≤ length out.old) }
    ensures { out.new ≡ put out.old (c * n) (resampled row.now ratio fraction n) }
{
    let at = (c * n) as usize;
    resample::resample(row, &mut out[at..], n, ratio, fraction);
}

// Channel c, of the sound before: its row into src, what is heard of it into row c of out. Gives what is kept after it.
fn play_channel(
    q: Queue,
    s: Source,
    memory: &SampleMemory,
    coefficients: &[i16; 16],
    before: Sound,
    kept: Sound,
    ratio: f32,
    fraction: f32,
    n: u32,
    c: u32,
    src: &mut [f32],
    out: &mut [f32],
) -> Sound
    requires ready { Ready q (over s memory.now.ranges.now) memory.now.bytes.now src.old }
    requires coefficients_value { coefficients.now ≡ table_of (has_table (over s memory.now.ranges.now))
        (over s memory.now.ranges.now) memory.now.bytes.now }
    requires c_lt_channels { (c < s.channels) × (n ≤ 256) × (c * n + n ≤ length out.old) }
    ensures value { result ≡ sound_step (material q (over s memory.now.ranges.now)
        memory.now.bytes.now (length src.old - 3) before ratio fraction n) c kept }
    ensures out_after { out.new
        ≡ out_step (material q (over s memory.now.ranges.now)
        memory.now.bytes.now (length src.old - 3) before ratio fraction n) c out.old }
{
    let three = three_of(before.history, c);
    let made = sound::fetch_channel(q, s, memory, coefficients, before.adpcm, three, c, src);
    hear(src, ratio, fraction, n, c, out);
    Sound {
        adpcm: context_after(c, kept.adpcm, made),
        history: with_tail(kept.history, c, src),
    }
}

// Every channel of a voice: what is heard into out, one row of n behind the other. Gives the sound that the voice keeps.
// `table`: the coefficients can be read.
pub fn play_channels(
    q: Queue,
    s: Source,
    ranges: &[u64],
    table: bool,
    memory: &[u8],
    sound: Sound,
    ratio: f32,
    fraction: f32,
    n: u32,
    src: &mut [f32],
    out: &mut [f32],
) -> Sound
    requires ready { Ready q (over s ranges.now) memory.now src.old }
    requires table_value { table ≡ has_table (over s ranges.now) }
    requires n_in_bounds { (s.channels * n ≤ length out.old) × (n ≤ 256) }
    ensures value { result ≡ played_sound (material q (over s ranges.now)
        memory.now (length src.old - 3) sound ratio fraction n) }
    ensures out_after { out.new
        ≡ played_out (material q (over s ranges.now)
        memory.now (length src.old - 3) sound ratio fraction n) out.old }
{
    let sample_memory = SampleMemory {
        ranges,
        bytes: memory,
    };
    let coefficients = sound::coefficients(&sample_memory, s, table);
    let mut kept = sound;
    for c in 0..s.channels {
        kept = play_channel(
            q,
            s,
            &sample_memory,
            &coefficients,
            sound,
            kept,
            ratio,
            fraction,
            n,
            c,
            src,
            out,
        );
    }
    kept
}
