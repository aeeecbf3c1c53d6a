// The destinations' records: each gives a destination its mix and its volumes.
ghost use Rattle.std.specs.Prelude.{◌≡◌, ◌+◌, ◌*◌, ◌≤◌, ◌<◌, ◌^◌, length};
ghost use Rattle.rows.specs.Rows.{put};
ghost use Rattle.splitters.specs.Destinations.{stride_of, stored_words, stored_floats, with_words, with_floats};

use crate::DESTINATION_MAGIC;

// The size of a record: where the second one is found, 0x70 to 0x100 from the first.
pub fn find_stride(d: &[u8], at: usize, count: u32) -> usize
    requires { at < 2 ^ 63 + 540 }
    ensures { (result ≡ stride_of d.now at count) × (result ≤ 256) }
{
    if count < 2 {
        return 0x70;
    }
    for k in 0..10 {
        let s = 0x70 + k * 0x10;
        if fields::u32_at(d, at + s) == DESTINATION_MAGIC {
            return s;
        }
    }
    0x70
}

// Destination id takes the record at `at`. The previous volumes are taken over only when it comes into use.
fn store_destination(
    d: &[u8],
    at: usize,
    ns: usize,
    id: usize,
    words: &mut [u32],
    floats: &mut [f32],
)
    requires { (at < 2 ^ 63) × (ns ≤ 32) × (id < 128) × (ns * 129 + id * 2 + 2 ≤ length words.old) × (id * 48 + 48 ≤ length floats.old) }
    ensures { (words.new ≡ stored_words ns id d.now at words.old) × (floats.new ≡ stored_floats ns id d.now at words.old floats.old) }
{
    let used = fields::flag_at(d, at + 0x6c);
    let row = ns * 129 + id * 2;
    let before = words[row];
    words[row] = u32::from(used);
    words[row + 1] = fields::u32_at(d, at + 0x68);
    let volumes = id * 48;
    desk::put_floats(d, at + 8, 24, floats, volumes);
    if used && before == 0 {
        desk::put_floats(d, at + 8, 24, floats, volumes + 24);
    }
}

// The destination that the record at `at` names, if there is one, takes it.
pub fn read_destination(
    d: &[u8],
    at: usize,
    ns: usize,
    nd: usize,
    words: &mut [u32],
    floats: &mut [f32],
)
    requires { (at < 2 ^ 63) × (ns ≤ 32) × (nd ≤ 128) × (ns * 129 + nd * 2 ≤ length words.old) × (nd * 48 ≤ length floats.old) }
    ensures { (words.new ≡ with_words ns nd d.now at words.old) × (floats.new ≡ with_floats ns nd d.now at words.old floats.old) }
{
    let id = fields::u32_at(d, at + 4) as usize;
    if id < nd {
        store_destination(d, at, ns, id, words, floats);
    }
}
