// A wave buffer's part of a voice's rows: 8 words and 3 longs.
ghost use Rattle.std.specs.Prelude.{◌≡◌, ◌+◌, ◌≤◌, length};
ghost use Rattle.rows.specs.Rows.{put, part};
ghost use Rattle.voice_rows.specs.WaveRow.{wave_from, words_from_wave, longs_from_wave, wave_of, words_of_wave, longs_of_wave};

use voice::WaveBuffer;

fn wave_of(w: [u32; 8], l: [u64; 3]) -> WaveBuffer
    ensures { result ≡ wave_from w l }
{
    WaveBuffer {
        addr: l[0],
        size: l[1],
        start: w[0],
        end: w[1],
        looping: w[2] != 0,
        end_of_stream: w[3] != 0,
        loop_count: w[4],
        context: l[2],
        loop_start: w[5],
        loop_end: w[6],
        pending: w[7] != 0,
    }
}

fn words_of_wave(b: WaveBuffer) -> [u32; 8]
    ensures { result ≡ words_from_wave b }
{
    [
        b.start,
        b.end,
        u32::from(b.looping),
        u32::from(b.end_of_stream),
        b.loop_count,
        b.loop_start,
        b.loop_end,
        u32::from(b.pending),
    ]
}

fn longs_of_wave(b: WaveBuffer) -> [u64; 3]
    ensures { result ≡ longs_from_wave b }
{
    [b.addr, b.size, b.context]
}

pub fn load_wave(words: &[u32], at_w: usize, longs: &[u64], at_l: usize) -> WaveBuffer
    requires at_w_in_bounds { at_w + 8 ≤ length words.now }
    requires at_l_in_bounds { at_l + 3 ≤ length longs.now }
    ensures { result ≡ wave_of (part 8 at_w words.now) (part 3 at_l longs.now) }
{
    let mut w = [0u32; 8];
    rows::copy_out(&mut w, words, at_w);
    let mut l = [0u64; 3];
    rows::copy_out(&mut l, longs, at_l);
    wave_of(w, l)
}

pub fn store_wave_words(b: WaveBuffer, words: &mut [u32], at: usize)
    requires { at + 8 ≤ length words.old }
    ensures { words.new ≡ put words.old at (words_of_wave b) }
{
    rows::copy_in(words, at, &words_of_wave(b));
}

pub fn store_wave_longs(b: WaveBuffer, longs: &mut [u64], at: usize)
    requires { at + 3 ≤ length longs.old }
    ensures { longs.new ≡ put longs.old at (longs_of_wave b) }
{
    rows::copy_in(longs, at, &longs_of_wave(b));
}
