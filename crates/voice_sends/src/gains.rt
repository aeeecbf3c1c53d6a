// Rows of gains, a resource's or a destination's: 24 floats that a send goes to, then 24 that it comes from (previous).
ghost use Rattle.std.specs.Prelude.{◌≡◌, ◌+◌, ◌*◌, ◌^◌, ◌≤◌, ◌<◌, length};
ghost use Rattle.sends.specs.Sends.{spread, gain_at};
ghost use Rattle.desk_rows.specs.DeskRows.{mix_offset, mix_buffers};
ghost use Rattle.rows.specs.Rows.{part};
ghost use Rattle.voice_sends.specs.Sending.{Ids, taken, taken_over, passing, sent};

use crate::samples::Rows;
use desk_rows::MixRows;

// Row id: its next send comes from where this one goes to.
fn take_row(gains: &mut [f32], id: usize)
    requires { id * 48 + 48 ≤ length gains.old }
    ensures { gains.new ≡ taken id gains.old }
{
    let mut row = [0.0; 24];
    rows::copy_out(&mut row, gains, id * 48);
    rows::copy_in(gains, id * 48 + 24, &row);
}

// The resource of each of a voice's channels.
pub fn take_over(resources: &mut [f32], ids: [u32; 6], channels: usize, nc: usize)
    requires fact_1 { Ids nc ids }
    requires fact_2 { (length resources.old ≡ nc * 48) × (channels ≤ 6) }
    ensures { resources.new ≡ taken_over ids channels resources.old }
{
    for c in 0..channels {
        take_row(resources, ids[c] as usize);
    }
}

// A row to the `count` rows from `offset` on, with the gains of row id.
fn send_gains(
    buffers: &mut [f32],
    row: &[f32],
    offset: usize,
    count: usize,
    gains: &[f32],
    id: usize,
)
    requires row_in { (offset < 2 ^ 16) × (count ≤ 24) × (length row.now ≤ 256) }
    requires gains_in { id * 48 + 48 ≤ length gains.now }
    ensures { buffers.new ≡ spread (gain_at (part 24 (id * 48 + 24) gains.now)) (gain_at (part 24 (id * 48) gains.now)) offset (length row.now) row.now count buffers.old }
{
    let to = id * 48;
    let from = to + 24;
    let end = from + 24;
    sends::send_moving(
        buffers,
        offset,
        count,
        row.len(),
        row,
        &gains[from..end],
        &gains[to..from],
    );
}

// Row c of a voice's rows to the rows of mix m, with the gains of row id, which is then taken.
pub fn send_channel(
    buffers: &mut [f32],
    rows: &Rows,
    mixes: &MixRows,
    m: usize,
    c: usize,
    gains: &mut [f32],
    id: usize,
)
    requires { (m < mixes.now.n) × (c < rows.now.channels) × (id * 48 + 48 ≤ length gains.old) }
    ensures { passing buffers.new gains.new ≡ sent rows.now.n rows.now.samples.now (mix_offset mixes.now.words.now m) (mix_buffers mixes.now.words.now m) c id (passing buffers.old gains.old) }
{
    let count = mixes.buffer_count(m);
    let offset = mixes.offset(m);
    send_gains(buffers, rows.row(c), offset, count, gains, id);
    take_row(gains, id);
}
