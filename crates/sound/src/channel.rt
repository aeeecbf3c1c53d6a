// A channel's row for the resampler: its history, the samples of the rounds, zeros.
ghost use Rattle.std.specs.Prelude.{◌-◌, ◌<◌, length};
ghost use Rattle.plan.specs.Source.{over};
ghost use Rattle.sound.specs.Channel.{Ready, FetchedBy};

use crate::act::play;
use crate::pcm::zeros_from;
use adpcm::AdpcmContext;
use memory::SampleMemory;
use plan::Source;
use voice::Queue;

// The sound of a fetch of count samples for channel c, into a row of 3 + count: the rounds of its plan, each with its act performed.
pub fn fetch_channel(
    q: Queue,
    s: Source,
    memory: &SampleMemory,
    coefficients: &[i16; 16],
    adpcm: AdpcmContext,
    history: [f32; 3],
    c: u32,
    out: &mut [f32],
) -> AdpcmContext
    requires ready { Ready q (over s memory.now.ranges.now) memory.now.bytes.now out.old }
    requires c_lt_channels { c < s.channels }
    ensures { FetchedBy q (over s memory.now.ranges.now) memory.now.bytes.now coefficients.now c adpcm history
        (length out.old - 3) out.new result }
{
    out[0] = history[0];
    out[1] = history[1];
    out[2] = history[2];
    let count = (out.len() - 3) as u32;
    let buffers = q.buffers;
    let mut spot = voice::spot_of(q);
    let mut x = adpcm;
    let mut done: u32 = 0;
    let mut rounds: u32 = 0;
    let mut going = plan::begins(spot, true, done, count);
    while rounds < 64 && going {
        let wb = buffers[spot.index as usize];
        let r = plan::plan_round(wb, spot, s, memory.ranges, count - done);
        let p = play(r.act, s, memory, coefficients, x, c, out, 3 + done as usize);
        x = p.adpcm;
        spot = r.spot;
        done += r.got;
        rounds += 1;
        going = plan::begins(spot, r.going, done, count);
    }
    zeros_from(out, 3 + done as usize);
    x
}
