// The flush walk by the table of `voice` (proofs/FlushTable): four slots pending and valid, from slot 1 on, with index 2 and consumed 7.
#![tactic(auto)]

use std::io;
use voice::{Queue, WaveBuffer};

// A wave buffer that has yet to be taken in.
fn pending_buffer() -> WaveBuffer {
    WaveBuffer {
        addr: 0x10000,
        size: 480,
        end: 240,
        end_of_stream: true,
        pending: true,
        ..WaveBuffer::default()
    }
}

// Four such buffers, all of them valid too.
fn queue() -> Queue {
    Queue {
        buffers: [pending_buffer(); 4],
        valid: [true; 4],
        index: 2,
        consumed: 7,
        offset: 5,
        played: 100,
        loops: 1,
    }
}

// A flush of so many turns: the count, the turns that it took, and what it leaves; of each slot two digits, whether it is pending and
// whether it is valid.
fn print_flush(rt: &impl Print, count: u32) -> io::Result<()> {
    let f = voice::flush(queue(), 1, count);
    let q = f.queue;
    print!(rt;
        "count {count}: turns {}, index {}, consumed {}",
        f.turns, q.index, q.consumed
    )?;
    print!(rt;
        ", offset {}, played {}, loops {}, slots",
        q.offset, q.played, q.loops
    )?;
    for (b, valid) in q.buffers.iter().zip(&q.valid) {
        print!(rt; " {}{}", b.pending as u32, *valid as u32)?;
    }
    println!(rt; "")
}

fn main(rt: HostRuntime) -> io::Result<()> {
    for count in [0, 3, 4, 5, 0xffff_ffff] {
        print_flush(&rt, count)?;
    }
    Ok(())
}
