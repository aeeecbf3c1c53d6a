// The last part of mixer.rs `render_voice`: a voice's ramp, and its sends into the mix buffers.
#![tactic(auto)]

mod gains;
mod mix;
mod ramps;
mod samples;
mod splitter;

ghost use Rattle.std.specs.Prelude.{◌≡◌, ◌*◌, length};
ghost use Rattle.voice_sends.specs.Sending.{Ids, sent_of, sends_of};

use desk_rows::Desk;
pub use gains::take_over;
pub use mix::to_mix;
pub use ramps::ramp_rows;
pub use samples::Rows;
pub use splitter::by_splitter;

// The voice's rows to its mix, or where it names none by its splitter.
pub fn send_voice(
    buffers: &mut [f32],
    rows: &Rows,
    desk: &Desk,
    ids: [u32; 6],
    mix_id: u32,
    splitter_id: u32,
    resources: &mut [f32],
    nc: usize,
    destinations: &mut [f32],
)
    requires ids { Ids nc ids }
    requires gains { (length resources.old ≡ nc * 48) × (length destinations.old ≡ desk.now.lists.nd * 48) }
    ensures { sent_of buffers.new resources.new destinations.new ≡ sends_of rows.now.n rows.now.samples.now rows.now.channels ids mix_id splitter_id desk.now.mixes.words.now desk.now.mixes.n desk.now.lists.words.now desk.now.lists.ns desk.now.lists.nd (sent_of buffers.old resources.old destinations.old) }
{
    if mix_id == 0x7fff_ffff {
        splitter::by_splitter(buffers, rows, desk, splitter_id as usize, destinations);
    } else {
        mix::to_mix(
            buffers,
            rows,
            ids,
            &desk.mixes,
            mix_id as usize,
            resources,
            nc,
        );
    }
}
