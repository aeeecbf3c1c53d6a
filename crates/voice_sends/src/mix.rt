// A voice's sends to one mix: each channel by its resource.
ghost use Rattle.std.specs.Prelude.{◌≡◌, ◌*◌, ◌<◌, length};
ghost use Rattle.desk_rows.specs.DeskRows.{mix_offset, mix_buffers};
ghost use Rattle.voice_sends.specs.Sending.{Ids, passing, mix_sends, to_mix};

use crate::gains::send_channel;
use crate::samples::Rows;
use desk_rows::MixRows;

// To mix m, which is there.
fn mix_sends(
    buffers: &mut [f32],
    rows: &Rows,
    ids: [u32; 6],
    mixes: &MixRows,
    m: usize,
    resources: &mut [f32],
    nc: usize,
)
    requires ids { Ids nc ids }
    requires there { (m < mixes.now.n) × (length resources.old ≡ nc * 48) }
    ensures { passing buffers.new resources.new ≡ mix_sends rows.now.n rows.now.samples.now rows.now.channels ids (mix_offset mixes.now.words.now m) (mix_buffers mixes.now.words.now m) (passing buffers.old resources.old) }
{
    for c in 0..rows.channels {
        let id = ids[c] as usize;
        send_channel(buffers, rows, mixes, m, c, resources, id);
    }
}

// To mix m, where there is one of that number.
pub fn to_mix(
    buffers: &mut [f32],
    rows: &Rows,
    ids: [u32; 6],
    mixes: &MixRows,
    m: usize,
    resources: &mut [f32],
    nc: usize,
)
    requires ids { Ids nc ids }
    requires resources { length resources.old ≡ nc * 48 }
    ensures { passing buffers.new resources.new ≡ to_mix rows.now.n rows.now.samples.now rows.now.channels ids mixes.now.words.now mixes.now.n m (passing buffers.old resources.old) }
{
    if m >= mixes.n {
        return;
    }
    mix_sends(buffers, rows, ids, mixes, m, resources, nc);
}
