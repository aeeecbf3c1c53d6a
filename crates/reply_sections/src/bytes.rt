// Words, put into the reply.
ghost use Rattle.std.specs.Prelude.{◌≡◌, ◌+◌, ◌*◌, ◌≤◌, length};
ghost use Rattle.rows.specs.Rows.{put};
ghost use Rattle.reply_sections.specs.Bytes.{words_bytes};

// Each word as four bytes, from `at` on.
pub fn put_words(out: &mut [u8], at: usize, words: &[u32])
    requires { at + length words.now * 4 ≤ length out.old }
    ensures { out.new ≡ put out.old at (words_bytes words.now) }
{
    for (k, word) in words.iter().enumerate() {
        fields::put_u32(out, at + k * 4, *word);
    }
}
