// mixer.rs `update_mixes`. Words: 5 for each mix, used, buffer_count, destination, splitter, offset. Floats: 577 for each, volume
// and 576 volumes.
ghost use Rattle.std.specs.Prelude.{◌≡◌, ◌+◌, ◌*◌, ◌≤◌, ◌<◌, length};
ghost use Rattle.rows.specs.Rows.{put};
ghost use Rattle.desk_mixes.specs.Mixes.{MixesSized, mix_rows, dirty_only, mix_base, mixes_read, mix_id, mix_head, mix_volumes, mix_put, mix_step, mix_records, mixes_of};

use crate::offsets::mix_offsets;

// From revision 7 on there are records of changed mixes only, behind a header.
fn dirty_only(revision: u32) -> bool
    ensures { result ≡ dirty_only revision }
{
    revision >= 7
}

// Where the records begin.
fn mix_base(dirty: bool) -> usize
    ensures { result ≡ mix_base dirty }
{
    if dirty { 0x20 } else { 0 }
}

// How many records are read: up to the first that is not whole.
fn mixes_read(d: &[u8], dirty: bool) -> usize
    ensures { result ≡ mixes_read dirty d.now }
{
    let whole = d.len().saturating_sub(mix_base(dirty)) / 0x930;
    if dirty {
        (fields::u32_at(d, 4) as usize).min(whole)
    } else {
        whole
    }
}

// The mix that record i is for.
fn mix_id(p: &[u8], dirty: bool, i: usize) -> usize
    ensures { result ≡ mix_id dirty p.now i }
{
    if dirty {
        fields::positive(fields::u32_at(p, 0x10)) as usize
    } else {
        i
    }
}

// The words of a mix in use, but for its offset.
fn put_words(p: &[u8], words: &mut [u32], at: usize)
    requires { at + 4 ≤ length words.old }
    ensures { words.new ≡ put words.old at (mix_head p.now) }
{
    let count = fields::u32_at(p, 0x08).min(24);
    let destination = fields::u32_at(p, 0x924);
    let splitter = fields::u32_at(p, 0x928);
    rows::copy_in(words, at, &[1, count, destination, splitter]);
}

// The floats of a mix in use.
fn put_volumes(p: &[u8], floats: &mut [f32], at: usize)
    requires { at + 577 ≤ length floats.old }
    ensures { floats.new ≡ put floats.old at (mix_volumes p.now) }
{
    floats[at] = fields::f32_at(p, 0x00);
    desk::put_floats(p, 0x24, 576, floats, at + 1);
}

// Mix id's rows, by its record.
fn put_mix(p: &[u8], id: usize, words: &mut [u32], floats: &mut [f32])
    requires { (id * 5 + 5 ≤ length words.old) × (id * 577 + 577 ≤ length floats.old) }
    ensures { mix_rows words.new floats.new ≡ mix_put p.now id (mix_rows words.old floats.old) }
{
    let at = id * 5;
    if fields::flag_at(p, 0x0c) {
        put_words(p, words, at);
        put_volumes(p, floats, id * 577);
    } else {
        words[at] = 0;
    }
}

// Record i: nothing where there is no such mix.
fn mix_record(d: &[u8], dirty: bool, i: usize, n: usize, words: &mut [u32], floats: &mut [f32])
    requires { (i < mixes_read dirty d.now) × MixesSized n words.old floats.old }
    ensures { mix_rows words.new floats.new ≡ mix_step dirty d.now n i (mix_rows words.old floats.old) }
{
    let at = mix_base(dirty) + i * 0x930;
    let p = fields::section(d, at, 0x930);
    let id = mix_id(p, dirty, i);
    if id < n {
        put_mix(p, id, words, floats);
    }
}

// All records, one after the other.
fn mix_records(d: &[u8], dirty: bool, n: usize, words: &mut [u32], floats: &mut [f32])
    requires { MixesSized n words.old floats.old }
    ensures { mix_rows words.new floats.new ≡ mix_records dirty d.now n (mix_rows words.old floats.old) }
{
    for i in 0..mixes_read(d, dirty) {
        mix_record(d, dirty, i, n, words, floats);
    }
}

pub fn update_mixes(d: &[u8], revision: u32, n: usize, words: &mut [u32], floats: &mut [f32])
    requires { MixesSized n words.old floats.old }
    ensures words_after { words.new ≡ (mixes_of revision d.now n (mix_rows words.old floats.old)).words }
    ensures floats_after { floats.new ≡ (mixes_of revision d.now n (mix_rows words.old floats.old)).floats }
{
    mix_records(d, dirty_only(revision), n, words, floats);
    mix_offsets(n, words);
}
