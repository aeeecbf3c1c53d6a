// The reply's effects: a state and zeros for each.
ghost use Rattle.std.specs.Prelude.{◌≡◌, ◌+◌, ◌*◌, ◌^◌, ◌≤◌, ◌<◌, length};
ghost use Rattle.rows.specs.Rows.{put};
ghost use Rattle.rows.specs.Tables.{joined};
ghost use Rattle.reply_sections.specs.Effects.{effect_state, effect_row, effect_at, effect_rows};

const EFFECT_ENABLED: usize = 2;

const EFFECT_STATE_ENABLED: u8 = 3;

const EFFECT_STATE_DISABLED: u8 = 4;

// By the byte there: enabled where it is not 0; past the end disabled.
fn effect_state(section: &[u8], at: usize) -> u8
    ensures { result ≡ effect_state section.now at }
{
    if fields::flag_at(section, at) {
        EFFECT_STATE_ENABLED
    } else {
        EFFECT_STATE_DISABLED
    }
}

// A state and zeros, w bytes together.
fn put_effect(state: u8, w: usize, out: &mut [u8], at: usize)
    requires { at + w ≤ length out.old }
    ensures { out.new ≡ put out.old at (effect_row w state) }
{
    if w > 0 {
        out[at] = state;
        rows::fill(out, at + 1, w - 1, 0);
    }
}

// n effects, each `stride_out` bytes, read from shares of `stride_in` bytes.
fn put_effects(
    n: usize,
    stride_in: usize,
    stride_out: usize,
    section: &[u8],
    out: &mut [u8],
    at: usize,
)
    requires n_bound { n ≤ 64 }
    requires stride_in_bound { stride_in < 2 ^ 32 }
    requires stride_out_in_bounds { at + n * stride_out ≤ length out.old }
    ensures { out.new ≡ put out.old at (joined n (effect_at stride_in stride_out section.now)) }
{
    for i in 0..n {
        let state = effect_state(section, i * stride_in + EFFECT_ENABLED);
        put_effect(state, stride_out, out, at + i * stride_out);
    }
}

pub fn write_effects(n: usize, bytes: usize, section: &[u8], out: &mut [u8], at: usize)
    requires n_bound { n ≤ 64 }
    requires section_len_bound { length section.now < 2 ^ 32 }
    requires bytes_in_bounds { at + bytes ≤ length out.old }
    ensures { out.new ≡ put out.old at (effect_rows n bytes section.now) }
{
    if n > 0 {
        put_effects(n, section.len() / n, bytes / n, section, out, at);
    }
}
