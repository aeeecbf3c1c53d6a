// The sound of a fetch of mixer.rs: performs the acts of a plan on the bytes of sample memory, a channel at a time.
#![tactic(auto)]

mod act;
mod channel;
mod pcm;

ghost use Rattle.std.specs.Prelude.{◌≡◌, length};
ghost use Rattle.ranges.specs.Ranges.{ranges_of};
ghost use Rattle.plan.specs.Source.{over};
ghost use Rattle.sound.specs.Sound.{table_of};

pub use act::Played;
pub use channel::fetch_channel;
use memory::SampleMemory;
pub use pcm::zeros;
use plan::Source;

// An ADPCM voice's eight pairs of coefficients; zeros where they can't be read.
pub fn coefficients(memory: &SampleMemory, s: Source, table: bool) -> [i16; 16]
    ensures { result ≡ table_of table (over s memory.now.ranges.now) memory.now.bytes.now }
{
    if table {
        return across::coefficients(memory, s.data_source);
    }
    [0i16; 16]
}
