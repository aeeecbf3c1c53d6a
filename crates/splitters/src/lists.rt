// The splitters' records: each gives a splitter its list of destinations.
ghost use Rattle.std.specs.Prelude.{◌≡◌, ◌+◌, ◌*◌, ◌≤◌, ◌<◌, ◌^◌, length};
ghost use Rattle.rows.specs.Rows.{put};
ghost use Rattle.rows.specs.Tables.{table};
ghost use Rattle.splitters.specs.Lists.{entry_of, with_list, next_of, lists, splitter_step};

use crate::{DESTINATION_MAGIC, SPLITTER_MAGIC};

// The n entries of the record at `at`, in place of as many words from `to` on.
fn put_entries(d: &[u8], at: usize, n: usize, words: &mut [u32], to: usize)
    requires { (at < 2 ^ 63) × (n ≤ 128) × (to + n ≤ length words.old) }
    ensures { words.new ≡ put words.old to (table n (entry_of d.now at)) }
{
    for k in 0..n {
        words[to + k] = fields::positive(fields::u32_at(d, at + 0x10 + k * 4));
    }
}

// The n entries of the record at `at`, as the list of the splitter that it names.
fn store_list(d: &[u8], at: usize, n: usize, ns: usize, words: &mut [u32])
    requires { (at < 2 ^ 63) × (n ≤ 128) × (ns * 129 ≤ length words.old) }
    ensures { words.new ≡ with_list ns n d.now at words.old }
{
    let id = fields::u32_at(d, at + 4) as usize;
    if id < ns {
        let row = id * 129;
        words[row] = n as u32;
        put_entries(d, at, n, words, row + 1);
    }
}

// Where the record after one with n entries begins.
fn next_place(d: &[u8], at: usize, n: usize) -> usize
    requires { (at < 2 ^ 63) × (n ≤ 128) }
    ensures { (result ≡ next_of n d.now at) × (result ≤ at + 540) }
{
    let next = at + 0x10 + n * 4;
    let magic = fields::u32_at(d, next);
    if magic == SPLITTER_MAGIC || magic == DESTINATION_MAGIC {
        next
    } else {
        next + 0xc
    }
}

// The record at `at`: where the next begins.
pub fn read_splitter(d: &[u8], at: usize, ns: usize, nd: usize, words: &mut [u32]) -> usize
    requires { (at < 2 ^ 63) × (nd ≤ 128) × (ns * 129 ≤ length words.old) }
    ensures { (lists result words.new ≡ splitter_step ns nd d.now (lists at words.old)) × (result ≤ at + 540) }
{
    let n = (fields::u32_at(d, at + 0xc) as usize).min(nd);
    store_list(d, at, n, ns, words);
    next_place(d, at, n)
}
