// The pieces of a merged block, each put into the output.
ghost use Rattle.std.specs.Prelude.{false, ◌≡◌, ◌+◌, ◌*◌, ◌≤◌, ◌<◌, length, get_or};
ghost use Rattle.rows.specs.Rows.{put};
ghost use Rattle.rows.specs.Tables.{joined};
ghost use Rattle.merging.specs.Merge.{resource_size, record_size, padded, chosen_record, chosen_resource};

use crate::RESOURCE_IN;
use voice_records::record_used;
use voices::VOICE_IN;

// w bytes of a slice from a place on, missing ones as 0, in place of those of the output from `at` on.
pub fn put_padded(output: &mut [u8], at: usize, w: usize, s: &[u8], from: usize)
    requires { at + w ≤ length output.old }
    ensures { output.new ≡ put output.old at (padded w from s.now) }
{
    let there = fields::rest(s, from);
    let n = w.min(there.len());
    rows::copy_in(output, at, &there[..n]);
    rows::fill(output, at + n, w - n, 0);
}

// Voice k's record: the one in use of two sections, or none.
fn chosen_record<'a>(d: &'a [u8], e: &'a [u8], k: usize) -> &'a [u8]
    requires { k < 64 }
    ensures { result.now ≡ chosen_record d.now e.now k }
{
    let one = fields::section(d, k * VOICE_IN, VOICE_IN);
    if record_used(one) {
        return one;
    }
    let other = fields::section(e, k * VOICE_IN, VOICE_IN);
    if record_used(other) { other } else { &[] }
}

// Those of n voices, zeros where there is none.
pub fn put_records(output: &mut [u8], at: usize, n: usize, d: &[u8], e: &[u8])
    requires { (n ≤ 64) × (at + n * record_size ≤ length output.old) }
    ensures { output.new ≡ put output.old at
        (joined n (λ k. padded record_size 0 (chosen_record d.now e.now k))) }
{
    for k in 0..n {
        put_padded(
            output,
            at + k * VOICE_IN,
            VOICE_IN,
            chosen_record(d, e, k),
            0,
        );
    }
}

// Channel resource j: of the click's section where it is named from there, else of the title's.
fn put_resource(output: &mut [u8], at: usize, named: bool, title: &[u8], click: &[u8], j: usize)
    requires { (j < 64) × (at + resource_size ≤ length output.old) }
    ensures { output.new ≡ put output.old at
        (chosen_resource named title.now click.now j) }
{
    let section = if named { click } else { title };
    put_padded(output, at, RESOURCE_IN, section, j * RESOURCE_IN);
}

// The first n of them.
pub fn put_resources(
    output: &mut [u8],
    at: usize,
    n: usize,
    named: &[bool],
    title: &[u8],
    click: &[u8],
)
    requires { (n ≤ 64) × (n ≤ length named.now) × (at + n * resource_size ≤ length output.old) }
    ensures { output.new ≡ put output.old at
        (joined n (λ j. chosen_resource (get_or named.now j false) title.now click.now j)) }
{
    for j in 0..n {
        put_resource(output, at + j * RESOURCE_IN, named[j], title, click, j);
    }
}
