// mixer.rs `write_sink` over the desk's sinks: the first used device sink, by its row.
#![tactic(auto)]

ghost use Rattle.std.specs.Prelude.{◌≡◌, ◌++◌, ◌+◌, ◌*◌, ◌^◌, ◌≤◌, ◌<◌, length, drop, IfSome};
ghost use Rattle.rows.specs.Rows.{part};
ghost use Rattle.sink.specs.Sink.{Silent};
ghost use Rattle.frames.specs.Frames.{Sinks, plays_at, first_from, downmix_at, sink_at, frames_of};

// Whether sink k is in use and a device.
fn plays(words: &[u32], k: usize) -> bool
    requires { (k < 8) × (k * 10 + 10 ≤ length words.now) }
    ensures { result ≡ plays_at words.now k }
{
    words[k * 10] != 0 && words[k * 10 + 1] != 0
}

// The first sink that plays.
fn first(words: &[u32], sinks: usize) -> Option<usize>
    requires { (sinks ≤ 8) × (length words.now ≡ sinks * 10) }
    ensures found { result ≡ first_from words.now sinks 0 }
    ensures inside { IfSome result (λ k. k < sinks) }
{
    for k in 0..sinks {
        if plays(words, k) {
            return Some(k);
        }
    }
    None
}

// The six inputs of sink k.
fn inputs(words: &[u32], k: usize) -> [u32; 6]
    requires { (k < 8) × (k * 10 + 10 ≤ length words.now) }
    ensures { result ≡ part 6 (k * 10 + 3) words.now }
{
    let mut row = [0; 6];
    rows::copy_out(&mut row, words, k * 10 + 3);
    row
}

// The factors that sink k gives, if it does.
fn downmix(words: &[u32], floats: &[f32], k: usize) -> Option<[f32; 4]>
    requires { (k < 8) × (k * 10 + 10 ≤ length words.now) × (k * 4 + 4 ≤ length floats.now) }
    ensures { result ≡ downmix_at words.now floats.now k }
{
    if words[k * 10 + 9] == 0 {
        return None;
    }
    let at = k * 4;
    Some([floats[at], floats[at + 1], floats[at + 2], floats[at + 3]])
}

// The frames of sink k.
fn write_row<'a>(
    out: &mut [f32],
    buffers: &'a [f32],
    silent: &'a [f32],
    n: usize,
    offset: usize,
    words: &[u32],
    floats: &[f32],
    k: usize,
)
    requires fact_1 { (2 * n ≤ length out.old) × (n < 2 ^ 24) × (offset < 2 ^ 16) }
    requires fact_2 { Silent n silent.now }
    requires fact_3 { (k < 8) × (k * 10 + 10 ≤ length words.now) × (k * 4 + 4 ≤ length floats.now) }
    ensures { out.new ≡ sink_at buffers.now n offset words.now floats.now k ++ drop (2 * n) out.old }
{
    let row = inputs(words, k);
    let factors = downmix(words, floats, k);
    let count = words[k * 10 + 2] as usize;
    sink::write_sink(out, buffers, silent, n, offset, row, count, factors);
}

// n frames, left and right by turns, of the first used device sink of `sinks`; zeros where there is none. What lies beyond them in `out`
// stays.
pub fn write_sink<'a>(
    out: &mut [f32],
    buffers: &'a [f32],
    silent: &'a [f32],
    n: usize,
    offset: usize,
    words: &[u32],
    floats: &[f32],
    sinks: usize,
)
    requires fact_1 { (2 * n ≤ length out.old) × (n < 2 ^ 24) × (offset < 2 ^ 16) }
    requires fact_2 { Silent n silent.now }
    requires fact_3 { Sinks sinks words.now floats.now }
    ensures { out.new ≡ frames_of buffers.now n offset words.now floats.now sinks ++ drop (2 * n) out.old }
{
    match first(words, sinks) {
        Some(k) => write_row(out, buffers, silent, n, offset, words, floats, k),
        None => sink::write_sink(out, buffers, silent, n, offset, [0; 6], 0, None),
    }
}
