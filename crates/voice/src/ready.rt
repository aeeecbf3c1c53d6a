// What a render does with a voice before it fetches: flushes, takes in pending buffers, stops.
ghost use Rattle.std.specs.Prelude.{◌≡◌, ◌<◌, min};
ghost use Rattle.voice.specs.Prepare.{flush_slot, flushed, promoted, any_of, stopped, prepare_of};
ghost use Rattle.voice.specs.Slots.{promote_slot, stop_slot};

use crate::queue::next_slot;
use crate::{Play, Queue, Voice};

// `ready`: there is a buffer to play. `reset`: the voice has stopped, and its ADPCM context and history become zeros.
#[derive(Clone, Copy)]
pub struct Prepared {
    pub voice: Voice,
    pub ready: bool,
    pub reset: bool,
}

// What a flush walk leaves, and the turns that it took.
#[derive(Clone, Copy)]
pub struct Flushed {
    pub queue: Queue,
    pub turns: u32,
}

// One turn of the flush walk: the slot's buffer is dropped and counts as consumed.
fn flush_slot(mut q: Queue, slot: u32) -> Queue
    requires { slot < 4 }
    ensures { result ≡ flush_slot q slot }
{
    let at = slot as usize;
    q.buffers[at].pending = false;
    q.valid[at] = false;
    q.index = next_slot(q.index);
    q.consumed = q.consumed.wrapping_add(1);
    q
}

// The flush walk turn by turn, from the base slot on.
fn walk(mut q: Queue, base: u32, turns: u32) -> Flushed
    requires { base < 4 }
    ensures queue_value { result.queue ≡ flushed turns base q }
    ensures turns_value { result.turns ≡ turns }
{
    let mut slot = base;
    for _turn in 0..turns {
        q = flush_slot(q, slot);
        slot = next_slot(slot);
    }
    Flushed { queue: q, turns }
}

// The flush walk of as many turns as the flush count. After four turns every slot is empty: the rest of the advance is worked out.
pub fn flush(q: Queue, base: u32, count: u32) -> Flushed
    requires { base < 4 }
    ensures queue_value { result.queue ≡ flushed count base q }
    ensures turns_value { result.turns ≡ min 4 count }
{
    if count < 5 {
        return walk(q, base, count);
    }
    let Flushed { mut queue, turns } = walk(q, base, 4);
    let rest = count - 4;
    queue.index = queue.index.wrapping_add(rest) % 4;
    queue.consumed = queue.consumed.wrapping_add(rest);
    Flushed { queue, turns }
}

// A slot's pending buffer becomes valid.
fn promote_slot(mut q: Queue, k: usize) -> Queue
    requires { k < 4 }
    ensures { result ≡ promote_slot q k }
{
    if q.buffers[k].pending {
        q.buffers[k].pending = false;
        q.valid[k] = true;
    }
    q
}

// Pending buffers become valid.
fn promote(mut q: Queue) -> Queue
    ensures { result ≡ promoted q }
{
    for k in 0..4 {
        q = promote_slot(q, k);
    }
    q
}

fn any_valid(q: Queue) -> bool
    ensures { result ≡ any_of q.valid }
{
    q.valid.iter().any(|v| *v)
}

// A slot's buffer is dropped; if it was valid, it counts as consumed.
fn stop_slot(mut q: Queue, k: usize) -> Queue
    requires k_bound { k < 4 }
    requires index_bound { q.index < 4 }
    ensures { result ≡ stop_slot q k }
{
    let was = q.valid[k];
    q.buffers[k].pending = false;
    q.valid[k] = false;
    if was {
        q.index = next_slot(q.index);
        q.consumed = q.consumed.wrapping_add(1);
    }
    q
}

// Every buffer is dropped; each that was valid counts as consumed. Nothing is played of the next.
fn stop(mut q: Queue) -> Queue
    requires { q.index < 4 }
    ensures { result ≡ stopped q }
{
    for k in 0..4 {
        q = stop_slot(q, k);
    }
    Queue {
        offset: 0,
        played: 0,
        loops: 0,
        ..q
    }
}

pub fn prepare(v: Voice) -> Prepared
    requires base_index_bound { v.base_index < 4 }
    requires index_bound { v.index < 4 }
    ensures { result ≡ prepare_of v }
{
    let queue = flush(crate::queue_of(v), v.base_index, v.flush).queue;
    let flushed = Voice { flush: 0, ..v };
    match v.play {
        Play::Started => {
            let queue = promote(queue);
            Prepared {
                voice: crate::with_queue(flushed, queue),
                ready: any_valid(queue),
                reset: false,
            }
        }
        Play::Stopping => Prepared {
            voice: crate::with_stopped(flushed, stop(queue)),
            ready: false,
            reset: true,
        },
        Play::Stopped | Play::Paused => Prepared {
            voice: crate::with_queue(flushed, queue),
            ready: false,
            reset: false,
        },
    }
}
