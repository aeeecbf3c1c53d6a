// The offsets of mixes in the mix buffers: each begins where the buffers of those before it end.
ghost use Rattle.std.specs.Prelude.{◌≡◌, ◌+◌, ◌*◌, ◌≤◌, ◌<◌, length};
ghost use Rattle.desk.specs.Columns.{AtMost};
ghost use Rattle.desk_mixes.specs.Mixes.{offsets_of};

// Mixes that are not in use have their buffers too.
pub fn mix_offsets(n: usize, words: &mut [u32])
    requires { (n ≤ 32) × (length words.old ≡ n * 5) × AtMost n 5 1 24 words.old }
    ensures { words.new ≡ offsets_of n words.old }
{
    let mut offset: u32 = 0;
    for k in 0..n {
        words[k * 5 + 4] = offset;
        offset += words[k * 5 + 1];
    }
}
