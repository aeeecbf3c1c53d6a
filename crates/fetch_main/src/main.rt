// A worked example of docs/QUESTIONS.md: an endless loop of one sample, of which 240 are needed, gives 64 samples and 176 zeros in 64
// rounds.
#![tactic(auto)]

ghost use Rattle.std.specs.Prelude.{◌≡◌, ◌≤◌, length};

use adpcm::AdpcmContext;
use plan::Source;
use std::io;
use voice::{Queue, WaveBuffer};

// A wave buffer of one 16-bit sample, which loops without end.
fn one_sample(addr: u64) -> WaveBuffer {
    WaveBuffer {
        addr,
        size: 2,
        end: 1,
        looping: true,
        loop_count: 0xffff_ffff,
        ..WaveBuffer::default()
    }
}

fn queue(addr: u64) -> Queue
    ensures { result.index ≡ 0 }
{
    Queue {
        buffers: [one_sample(addr); 4],
        valid: [true, false, false, false],
        index: 0,
        consumed: 0,
        offset: 0,
        played: 0,
        loops: 0,
    }
}

// How many of s are x.
fn count(s: &[f32], x: f32) -> usize
    ensures { result ≤ length s.now }
{
    s.iter().filter(|v| **v == x).count()
}

fn main(rt: HostRuntime) -> io::Result<()> {
    let memory = [0x34, 0x12];
    let s = Source {
        format: voice::PCM_INT16,
        channels: 1,
        decoding: 0,
        data_source: 0,
        buffers_v2: true,
    };
    let ctx = AdpcmContext::default();
    let q = queue(0x10000);
    let ranges = [0x10000, 0, 2];
    let mut row = [1.0; 243];
    fetch_once::fetch_row(q, s, &ranges, &memory, ctx, [-1.0; 3], 0, &mut row);
    let plan = plan::plan_fetch(q, s, &ranges, 240);
    println!(rt; "samples {}", count(&row, 4660.0))?;
    println!(rt; "zeros {}", count(&row, 0.0))?;
    println!(rt; "rounds {}", plan.rounds)
}
