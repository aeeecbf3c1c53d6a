// What a round's samples make of the spot: the position moves on, a loop begins anew, or the buffer ends.
// `wb` is the buffer that plays, of any four (`b`) that have it there.
ghost use Rattle.std.specs.Prelude.{◌≡◌, ◌<◌, List, slice_index_or};
ghost use Rattle.voice.specs.declared.wave.WaveBuffer.{WaveBuffer};
ghost use Rattle.voice.specs.Queue.{no_buffer, queue_at};
ghost use Rattle.plan.specs.Rounds.{loops_over, resets_played, after_missing, end_if, after_loop, span_over, after_got, moved_at};

use crate::Source;
use voice::{Spot, WaveBuffer};

// The spot, and whether another round may follow.
#[derive(Clone, Copy)]
pub struct Next {
    pub spot: Spot,
    pub going: bool,
}

// Whether a loop that has ended once more was the last: the limit is none below revision 8 or where it is negative.
fn loops_over(buffers_v2: bool, limit: u32, loops: u32, got: u32) -> bool
    ensures { result ≡ loops_over buffers_v2 limit loops got }
{
    if !buffers_v2 {
        return false;
    }
    if limit >= 0x8000_0000 {
        return false;
    }
    if got == 0 {
        return true;
    }
    if loops >= 0x8000_0000 {
        return false;
    }
    limit < loops
}

// A decode that is missing ends the buffer.
pub fn after_missing(mut p: Spot, wb: WaveBuffer) -> Spot
    requires { p.index < 4 }
    ensures { (b : List WaveBuffer) → slice_index_or b p.index no_buffer ≡ wb → queue_at b result ≡ after_missing (queue_at b p) }
{
    p.offset = 0;
    voice::end_buffer(p, wb.end_of_stream)
}

// The buffer that plays has ended, where over says so.
fn end_if(p: Spot, wb: WaveBuffer, over: bool) -> Spot
    requires { p.index < 4 }
    ensures { (b : List WaveBuffer) → slice_index_or b p.index no_buffer ≡ wb → queue_at b result ≡ end_if over (queue_at b p) }
{
    if over {
        return voice::end_buffer(p, wb.end_of_stream);
    }
    p
}

// The end of a looping buffer's span: one loop more, and the buffer's end where that was the last.
// Where nothing was got no other round follows.
fn after_loop(mut p: Spot, s: Source, wb: WaveBuffer, got: u32) -> Spot
    requires { p.index < 4 }
    ensures { (b : List WaveBuffer) → slice_index_or b p.index no_buffer ≡ wb
        → queue_at b result ≡ after_loop (queue_at b p) s.decoding s.buffers_v2 wb got }
{
    let loops = p.loops.wrapping_add(1);
    let over = loops_over(s.buffers_v2, wb.loop_count, loops, got);
    p.offset = 0;
    p.loops = loops;
    let mut ended = end_if(p, wb, over);
    if resets(s.decoding, got) {
        ended.played = 0;
    }
    ended
}

// Whether a loop sets the count of what was played back to 0.
fn resets(decoding: u32, got: u32) -> bool
    ensures { result ≡ resets_played decoding got }
{
    got != 0 && decoding % 2 != 0
}

// What the samples of a round, of a span of total, make of the spot.
pub fn after_got(mut p: Spot, s: Source, wb: WaveBuffer, total: u32, got: u32) -> Next
    requires { p.index < 4 }
    ensures { (b : List WaveBuffer) → slice_index_or b p.index no_buffer ≡ wb
        → moved_at b result ≡ after_got (queue_at b p) s.decoding s.buffers_v2 wb total got }
{
    p.offset = p.offset.wrapping_add(got);
    p.played = p.played.wrapping_add(got as u64);
    if span_over(p.offset, total, got) {
        if wb.looping {
            return Next {
                spot: after_loop(p, s, wb, got),
                going: got != 0,
            };
        }
        return Next {
            spot: after_missing(p, wb),
            going: true,
        };
    }
    Next {
        spot: p,
        going: true,
    }
}

// Whether the span has ended: all of it was played, or the round got nothing.
fn span_over(offset: u32, total: u32, got: u32) -> bool
    ensures { result ≡ span_over offset total got }
{
    total <= offset || got == 0
}
