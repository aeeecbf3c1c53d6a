// The queue of a voice's four wave buffers: which are valid, which plays, and how far it has played.
ghost use Rattle.std.specs.Prelude.{◌≡◌, ◌<◌, List, slice_index_or};
ghost use Rattle.voice.specs.declared.wave.WaveBuffer.{WaveBuffer};
ghost use Rattle.voice.specs.Queue.{no_buffer, next_slot, spot_of, queue_at, end_buffer};

use crate::WaveBuffer;

// `loops` is the 32 bits of the Rust's i32. Each counter goes round at its own width.
#[derive(Clone, Copy)]
pub struct Queue {
    pub buffers: [WaveBuffer; 4],
    pub valid: [bool; 4],
    pub index: u32,
    pub consumed: u32,
    pub offset: u32,
    pub played: u64,
    pub loops: u32,
}

// Where in its queue a voice plays, and how far: what a fetch moves. The wave buffers stay as they are.
#[derive(Clone, Copy)]
pub struct Spot {
    pub valid: [bool; 4],
    pub index: u32,
    pub consumed: u32,
    pub offset: u32,
    pub played: u64,
    pub loops: u32,
}

// The next of the four slots, for any word: 4 divides 2^32.
pub fn next_slot(slot: u32) -> u32
    ensures { result ≡ next_slot slot }
{
    slot.wrapping_add(1) % 4
}

// The spot of a queue.
pub fn spot_of(q: Queue) -> Spot
    ensures { result ≡ spot_of q }
{
    let valid = q.valid;
    Spot {
        valid,
        index: q.index,
        consumed: q.consumed,
        offset: q.offset,
        played: q.played,
        loops: q.loops,
    }
}

// The queue of four wave buffers at a spot.
pub fn queue_at(buffers: [WaveBuffer; 4], p: Spot) -> Queue
    ensures { result ≡ queue_at buffers p }
{
    let valid = p.valid;
    Queue {
        buffers,
        valid,
        index: p.index,
        consumed: p.consumed,
        offset: p.offset,
        played: p.played,
        loops: p.loops,
    }
}

// The buffer that plays has ended: the next slot plays, from no loop. `last` says that the stream ends with it.
pub fn end_buffer(mut p: Spot, last: bool) -> Spot
    requires { p.index < 4 }
    ensures { (b : List WaveBuffer) → (slice_index_or b p.index no_buffer).end_of_stream ≡ last
        → queue_at b result ≡ end_buffer (queue_at b p) }
{
    p.valid[p.index as usize] = false;
    p.index = next_slot(p.index);
    p.loops = 0;
    p.consumed = p.consumed.wrapping_add(1);
    if last {
        p.played = 0;
    }
    p
}
