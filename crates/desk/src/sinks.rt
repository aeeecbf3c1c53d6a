// mixer.rs `update_sinks`. Words: 10 for each sink, used, device, input count, 6 inputs, downmix given. Floats: 4 for each, the
// downmix's factors.
ghost use Rattle.std.specs.Prelude.{◌≡◌, ◌+◌, ◌*◌, ◌≤◌, ◌<◌, length};
ghost use Rattle.rows.specs.Rows.{put};
ghost use Rattle.desk.specs.Sinks.{SinksSized, sink_rows, device_row, sink_step, sink_put, sinks_of};

use crate::records::put_floats;

// A device's words.
fn put_device(p: &[u8], words: &mut [u32], at: usize)
    requires { at + 10 ≤ length words.old }
    ensures { words.new ≡ put words.old at (device_row p.now) }
{
    let used = u32::from(fields::flag_at(p, 1));
    let count = fields::u32_at(p, 0x120).min(6);
    let given = u32::from(fields::flag_at(p, 0x12b));
    let mut row = [used, 1, count, 0, 0, 0, 0, 0, 0, given];
    for k in 0..6 {
        row[3 + k] = u32::from(fields::byte_at(p, 0x124 + k));
    }
    rows::copy_in(words, at, &row);
}

// Sink k's rows, by its record.
fn put_sink(p: &[u8], k: usize, words: &mut [u32], floats: &mut [f32])
    requires { (k * 10 + 10 ≤ length words.old) × (k * 4 + 4 ≤ length floats.old) }
    ensures { sink_rows words.new floats.new ≡ sink_put p.now k (sink_rows words.old floats.old) }
{
    let at = k * 10;
    if fields::byte_at(p, 0) == 1 {
        put_device(p, words, at);
        put_floats(p, 0x12c, 4, floats, k * 4);
    } else {
        let used = u32::from(fields::flag_at(p, 1));
        rows::copy_in(words, at, &[used, 0]);
    }
}

// Sink k, from its record.
fn sink_record(d: &[u8], k: usize, words: &mut [u32], floats: &mut [f32])
    requires { (k * 0x140 + 0x140 ≤ length d.now) × (k * 10 + 10 ≤ length words.old) × (k * 4 + 4 ≤ length floats.old) }
    ensures { sink_rows words.new floats.new ≡ sink_step d.now k (sink_rows words.old floats.old) }
{
    let p = fields::section(d, k * 0x140, 0x140);
    put_sink(p, k, words, floats);
}

pub fn update_sinks(d: &[u8], n: usize, words: &mut [u32], floats: &mut [f32])
    requires { SinksSized n words.old floats.old }
    ensures words_after { words.new ≡ (sinks_of d.now n (sink_rows words.old floats.old)).words }
    ensures floats_after { floats.new ≡ (sinks_of d.now n (sink_rows words.old floats.old)).floats }
{
    for k in 0..n.min(d.len() / 0x140) {
        sink_record(d, k, words, floats);
    }
}
