// Plan and sound of one channel in one call, for the comparison with the Rust and for programs that hold no plan.
#![tactic(auto)]

use adpcm::AdpcmContext;
use memory::SampleMemory;
use plan::Source;
use voice::Queue;

// Plan and sound of channel c, into a row that begins with its history; as it is where a fetch requires more.
pub fn fetch_row(
    q: Queue,
    s: Source,
    ranges: &[u64],
    memory: &[u8],
    adpcm: AdpcmContext,
    history: [f32; 3],
    c: u32,
    out: &mut [f32],
) -> AdpcmContext {
    if out.len() < 3 || out.len() > 4100 || q.index > 3 {
        return adpcm;
    }
    if s.channels == 0 || s.channels > 6 || s.channels <= c {
        return adpcm;
    }
    if !ranges::laid(ranges, memory.len() as u64) || !ranges::near(ranges) {
        return adpcm;
    }
    let count = (out.len() - 3) as u32;
    let plan = plan::plan_fetch(q, s, ranges, count);
    let sample_memory = SampleMemory {
        ranges,
        bytes: memory,
    };
    let table = sound::coefficients(&sample_memory, s, plan.table);
    sound::fetch_channel(q, s, &sample_memory, &table, adpcm, history, c, out)
}
