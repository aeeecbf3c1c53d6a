// A voice's turn in a render (mixer.rs `render_voice`), as far as it moves the voice's position. No sample is looked at:
// the plan of the turn's fetch says what is read, and the crate `playing` makes the sound of it.
#![tactic(auto)]

ghost use Rattle.std.specs.Prelude.{◌≡◌, ℕ, ◌<◌, ◌≤◌, T, List};
ghost use Rattle.floats.specs.Unit.{in_unit};
ghost use Rattle.resample.specs.Defs.{next_of};
ghost use Rattle.plan.specs.Source.{over};
ghost use Rattle.turn.specs.Render.{render_over};
ghost use Rattle.turn.specs.Turn.{takes_part, with, freshened, begin_of, skips_conversion};
ghost use Rattle.turn.specs.Turn.{speed_of, ratio_of, source_of, needed_by, previous_of, turn_of, told};

use plan::{Plan, Source};
use voice::{Prepared, Queue, Voice};

// What a render gives to each voice: its samples, the renderer's rate, and whether the revision is 8 or later. The ranges of sample
// memory are lent beside it.
#[derive(Clone, Copy)]
pub struct Render {
    pub sample_count: u32,
    pub sample_rate: u32,
    pub buffers_v2: bool,
}

// A turn: the voice after it, and what its sound is made from. `fraction` is the voice's before the turn; the volume ramps from `from` to
// `to`.
#[derive(Clone, Copy)]
pub struct Turn {
    pub voice: Voice,
    pub plan: Plan,
    pub ratio: f32,
    pub fraction: f32,
    pub needed: u32,
    pub from: f32,
    pub to: f32,
}

// Whether the voice is in use and has a wave buffer queued.
pub fn takes_part(v: Voice) -> bool
    ensures { result ≡ takes_part v }
{
    v.in_use && v.queued != 0
}

// A fresh voice's volume does not ramp, and it is fresh no longer.
fn freshen(v: Voice) -> Voice
    ensures { result ≡ freshened v }
{
    if v.fresh {
        Voice {
            fresh: false,
            previous_volume: v.volume,
            ..v
        }
    } else {
        v
    }
}

// What a turn does before it fetches.
pub fn begin(v: Voice) -> Prepared
    requires base_index_bound { v.base_index < 4 }
    requires index_bound { v.index < 4 }
    ensures { result ≡ begin_of v }
{
    voice::prepare(freshen(v))
}

// Whether the voice's sample rate is not converted: SKIP_SAMPLE_RATE_CONVERSION, bit 1 of decoding.
fn skips_conversion(decoding: u32) -> bool
    ensures { result ≡ skips_conversion decoding }
{
    decoding / 2 % 2 == 1
}

// The voice's rate over the renderer's, times its pitch.
fn speed(v: Voice, rate: u32) -> f32
    ensures { result ≡ speed_of rate v }
{
    let own = std::num::nearest_u32_to_f32(v.sample_rate);
    own / std::num::nearest_u32_to_f32(rate.max(1)) * v.pitch
}

// Samples taken for each that is played.
pub fn ratio(v: Voice, rate: u32) -> f32
    ensures { result ≡ ratio_of rate v }
{
    let asked = if skips_conversion(v.decoding) {
        1.0
    } else {
        speed(v, rate)
    };
    floats::clamp_ratio(asked)
}

// What a fetch takes from the voice and from the render.
pub fn source_of(v: Voice, r: Render) -> Source
    ensures { (numbers : List ℕ) → over result numbers ≡ source_of v (render_over r numbers) }
{
    Source {
        format: v.format,
        channels: v.channels,
        decoding: v.decoding,
        data_source: v.data_source,
        buffers_v2: r.buffers_v2,
    }
}

// The fraction that the next turn begins with, as `resample` gives it.
fn next_fraction(fraction: f32, ratio: f32, count: u32) -> f32
    ensures { result ≡ next_of fraction ratio count }
{
    let end = fraction + ratio * std::num::nearest_u32_to_f32(count);
    end - floats::floor(end)
}

// The volume that the next turn ramps from: a voice without a destination keeps the one it had.
fn previous_of(v: Voice) -> f32
    ensures { result ≡ previous_of v }
{
    if voice::has_destination(v.mix_id, v.splitter_id) {
        v.volume
    } else {
        v.previous_volume
    }
}

// The voice after its fetch.
fn finish(v: Voice, previous: f32, q: Queue, fraction: f32) -> Voice
    ensures { result ≡ with v.fresh previous q fraction v }
{
    Voice {
        previous_volume: previous,
        fraction,
        ..voice::with_queue(v, q)
    }
}

// The samples that the turn of a voice takes.
pub fn samples_needed(v: Voice, r: Render) -> usize
    ensures { (numbers : List ℕ) → result ≡ needed_by v (render_over r numbers) }
{
    resample::needed(v.fraction, ratio(v, r.sample_rate), r.sample_count)
}

// The turn of a voice that is ready.
pub fn plan_turn(v: Voice, r: Render, ranges: &[u64]) -> Turn
    requires index_bound { v.index < 4 }
    requires le_channels { (1 ≤ v.channels) × (v.channels ≤ 6) }
    requires sample_count_bound { r.sample_count ≤ 256 }
    requires t { T (in_unit v.fraction) }
    ensures { result ≡ told (turn_of v (render_over r ranges.now)) }
{
    let ratio = ratio(v, r.sample_rate);
    let needed = resample::needed(v.fraction, ratio, r.sample_count) as u32;
    let plan = plan::plan_fetch(voice::queue_of(v), source_of(v, r), ranges, needed);
    let fraction = next_fraction(v.fraction, ratio, r.sample_count);
    Turn {
        voice: finish(v, previous_of(v), plan.queue, fraction),
        plan,
        ratio,
        fraction: v.fraction,
        needed,
        from: v.previous_volume,
        to: v.volume,
    }
}
