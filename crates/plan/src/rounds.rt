// The rounds of a fetch: at most 64, each of the buffer that plays.
ghost use Rattle.std.specs.Prelude.{◌≡◌, ◌-◌, ◌^◌, ◌<◌, ◌≤◌, min, List, slice_index_or};
ghost use Rattle.voice.specs.declared.wave.WaveBuffer.{WaveBuffer};
ghost use Rattle.voice.specs.Queue.{no_buffer, queue_at};
ghost use Rattle.plan.specs.Source.{over};
ghost use Rattle.plan.specs.Rounds.{is_positive, context_read, in_loop, round_plan, more, has_table, plan_of, round_at, without_acts};

use crate::after::{after_got, after_missing};
use crate::{Act, Source};
use adpcm::Sample;
use voice::{Queue, Spot, WaveBuffer};

// What a fetch leaves: the queue, how many rounds it took, the samples got, and whether the coefficients can be read.
#[derive(Clone, Copy)]
pub struct Plan {
    pub queue: Queue,
    pub rounds: u32,
    pub done: u32,
    pub table: bool,
}

// What a round leaves: the spot, the samples got, its act, and whether another may follow.
#[derive(Clone, Copy)]
pub struct Step {
    pub spot: Spot,
    pub got: u32,
    pub act: Act,
    pub going: bool,
}

// Where a buffer that begins gets its ADPCM context from memory.
fn context_read(s: Source, ranges: &[u64], wb: WaveBuffer, offset: u32) -> Option<u64>
    ensures { result ≡ context_read (over s ranges.now) wb offset }
{
    if offset != 0 {
        return None;
    }
    if s.format != voice::ADPCM {
        return None;
    }
    if wb.context == 0 {
        return None;
    }
    ranges::readable(ranges, wb.context, 6).then_some(wb.context)
}

// Whether a buffer that has looped plays its loop span: from revision 8 on, if it has one.
fn in_loop(buffers_v2: bool, wb: WaveBuffer, loops: u32) -> bool
    ensures { result ≡ in_loop buffers_v2 wb loops }
{
    if !buffers_v2 {
        return false;
    }
    if !positive(loops) {
        return false;
    }
    if wb.loop_start == 0 {
        return false;
    }
    if wb.loop_end == 0 {
        return false;
    }
    wb.loop_start <= wb.loop_end
}

// Whether the 32 bits are a signed number above 0.
fn positive(x: u32) -> bool
    ensures { result ≡ is_positive x }
{
    x != 0 && x < 0x8000_0000
}

// One round, of at most left samples, of wb, the buffer that plays.
pub fn plan_round(wb: WaveBuffer, p: Spot, s: Source, ranges: &[u64], left: u32) -> Step
    requires index_bound { p.index < 4 }
    requires channels_nonzero { (0 < s.channels) × (s.channels ≤ 6) }
    requires left_bound { left ≤ 2 ^ 16 }
    ensures { (b : List WaveBuffer) → slice_index_or b p.index no_buffer ≡ wb
        → round_at b result ≡ round_plan (queue_at b p) (over s ranges.now) left }
{
    let context = context_read(s, ranges, wb, p.offset);
    let looped = in_loop(s.buffers_v2, wb, p.loops);
    let (start, end) = if looped {
        (wb.loop_start, wb.loop_end)
    } else {
        (wb.start, wb.end)
    };
    let total = end.saturating_sub(start);
    let want = left.min(total.saturating_sub(p.offset));
    let pos = start.wrapping_add(p.offset) as u64;
    let tried = crate::plan_decode(s, ranges, wb, Sample(pos), want);
    let act = Act {
        context,
        decode: tried.decode,
    };
    match tried.got {
        None => Step {
            spot: after_missing(p, wb),
            got: 0,
            act,
            going: true,
        },
        Some(n) => {
            let moved = after_got(p, s, wb, total, n);
            Step {
                spot: moved.spot,
                got: n,
                act,
                going: moved.going,
            }
        }
    }
}

// Whether a round begins: samples are wanted, and the buffer that plays is valid.
pub fn begins(p: Spot, going: bool, done: u32, count: u32) -> bool
    requires { p.index < 4 }
    ensures { (b : List WaveBuffer) → result ≡ more going (queue_at b p) done count }
{
    if !going {
        return false;
    }
    if count <= done {
        return false;
    }
    p.valid[p.index as usize]
}

// The plan of a fetch of count samples. Its acts are not kept: `sound::fetch_channel` goes through the rounds again.
pub fn plan_fetch(q: Queue, s: Source, ranges: &[u64], count: u32) -> Plan
    requires index_bound { q.index < 4 }
    requires channels_nonzero { (0 < s.channels) × (s.channels ≤ 6) }
    requires count_bound { count ≤ 2 ^ 16 }
    ensures { result ≡ without_acts (plan_of q (over s ranges.now) count) }
{
    let buffers = q.buffers;
    let mut spot = voice::spot_of(q);
    let mut done: u32 = 0;
    let mut rounds: u32 = 0;
    let mut going = begins(spot, true, done, count);
    while rounds < 64 && going {
        let wb = buffers[spot.index as usize];
        let r = plan_round(wb, spot, s, ranges, count - done);
        spot = r.spot;
        done += r.got;
        rounds += 1;
        going = begins(spot, r.going, done, count);
    }
    Plan {
        queue: voice::queue_at(buffers, spot),
        rounds,
        done,
        table: table_read(s, ranges),
    }
}

// Whether the coefficients of an ADPCM voice can be read.
fn table_read(s: Source, ranges: &[u64]) -> bool
    ensures { result ≡ has_table (over s ranges.now) }
{
    s.format == voice::ADPCM && ranges::readable(ranges, s.data_source, 32)
}
