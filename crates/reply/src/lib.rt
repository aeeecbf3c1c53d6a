// The reply of an update, section by section into a lent slice.
#![tactic(auto)]

ghost use Rattle.std.specs.Prelude.{◌≡◌, ◌+◌, ◌*◌, ◌/◌, ◌^◌, ◌≤◌, ◌<◌, length};
ghost use Rattle.rows.specs.Rows.{put};
ghost use Rattle.params.specs.Sizes.{Allowed, info_bytes, reply_length};
ghost use Rattle.params.specs.Sections.{sections_of, Near};
ghost use Rattle.reply.specs.Reply.{front_bytes, front_of, back_of, reply_of};

mod header;
mod rest;

use params::{Params, Sections};

// Header, pools and voices, from the slice's front on.
fn write_front(
    p: Params,
    expected: u32,
    input: &[u8],
    s: Sections,
    words: &[u32],
    longs: &[u64],
    out: &mut [u8],
)
    requires allowed { Allowed p }
    requires s_value { s ≡ sections_of input.now }
    requires near { Near s }
    requires words_len { length words.now ≡ p.voices * 58 }
    requires longs_len { length longs.now ≡ p.voices * 14 }
    requires p_in_bounds { front_bytes p ≤ length out.old }
    ensures { out.new ≡ put out.old 0 (front_of p expected input.now words.now longs.now) }
{
    let pools = p.memory_pools() as usize;
    let voices_at = params::HEADER_SIZE + pools * params::MEMORY_POOL_OUT;
    header::write_header(p, expected, out);
    reply_sections::write_pools(
        pools,
        s.behavior_size,
        s.pools_size,
        input,
        out,
        params::HEADER_SIZE,
    );
    reply_sections::write_voices(p.voices as usize, words, longs, out, voices_at);
}

// Effects in so many bytes, sinks, performance, behaviour and render info.
fn write_back(p: Params, bytes: usize, section: &[u8], elapsed: u64, out: &mut [u8], at: usize)
    requires allowed { Allowed p }
    requires section_len_bound { length section.now < 2 ^ 32 }
    requires effects_value { bytes / p.effects * p.effects ≡ bytes }
    requires p_in_bounds { at + (bytes + (p.sinks * 0x20 + 0xc0) + info_bytes p) ≤ length out.old }
    ensures { out.new ≡ put out.old at (back_of p bytes section.now elapsed) }
{
    let rest_at = at + bytes;
    let info_at = rest_at
        + p.sinks as usize * params::SINK_OUT
        + params::PERFORMANCE_OUT
        + params::BEHAVIOR_OUT;
    reply_sections::write_effects(p.effects as usize, bytes, section, out, at);
    rest::write_rest(p, out, rest_at);
    rest::write_info(p, elapsed, out, info_at);
}

// The whole reply, from the slice's front on. `words` and `longs` are the voices' rows as the update left them.
pub fn write_reply(
    p: Params,
    expected: u32,
    input: &[u8],
    elapsed: u64,
    words: &[u32],
    longs: &[u64],
    out: &mut [u8],
)
    requires allowed { Allowed p }
    requires words_len { length words.now ≡ p.voices * 58 }
    requires longs_len { length longs.now ≡ p.voices * 14 }
    requires expected_in_bounds { reply_length p expected ≤ length out.old }
    ensures { out.new ≡ put out.old 0 (reply_of p expected input.now elapsed words.now longs.now) }
{
    let s = Sections::read(input);
    let section = fields::section(input, s.effects_at, s.effects_size);
    let bytes = p.effects_bytes(expected);
    let at = params::HEADER_SIZE
        + p.memory_pools() as usize * params::MEMORY_POOL_OUT
        + p.voices as usize * params::VOICE_OUT;
    write_front(p, expected, input, s, words, longs, out);
    write_back(p, bytes, section, elapsed, out, at);
}
