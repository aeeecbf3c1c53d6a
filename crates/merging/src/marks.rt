// The channel resources that a block's voices name.
ghost use Rattle.std.specs.Prelude.{◌≡◌, ◌≤◌, ◌<◌, length};
ghost use Rattle.merging.specs.Marks.{most_marks, marked_by, marked_at, marked};

use voice_records::{id_at, record_channels, record_used};
use voices::VOICE_IN;

// As many as there can be voices.
pub const MOST_MARKS: usize = 64;

// Marks those that a voice with this record names: of the channels that it plays.
fn mark_record(n: u32, e: &[u8], marks: &mut [bool])
    requires { (0 < n) × (n ≤ length marks.old) }
    ensures { marks.new ≡ marked_by n e.now marks.old }
{
    let channels = record_channels(e) as usize;
    for c in 0..channels {
        let id = id_at(e, n, c) as usize;
        marks[id] = true;
    }
}

// Marks those that voice k of a section names, if it is in use.
fn mark_voice(n: usize, d: &[u8], k: usize, marks: &mut [bool])
    requires { (k < n) × (n ≤ most_marks) × (length marks.old ≡ most_marks) }
    ensures { marks.new ≡ marked_at n d.now k marks.old }
{
    let e = fields::section(d, k * VOICE_IN, VOICE_IN);
    if record_used(e) {
        mark_record(n as u32, e, marks);
    }
}

// Marks those that the n voices of a section name.
pub fn mark_named(n: usize, d: &[u8], marks: &mut [bool])
    requires { (n ≤ most_marks) × (length marks.old ≡ most_marks) }
    ensures { marks.new ≡ marked n d.now marks.old }
{
    for k in 0..n {
        mark_voice(n, d, k, marks);
    }
}
