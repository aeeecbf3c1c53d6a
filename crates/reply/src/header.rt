// The reply's header: sixteen words.
ghost use Rattle.std.specs.Prelude.{◌≡◌, ◌≤◌, length};
ghost use Rattle.rows.specs.Rows.{put};
ghost use Rattle.params.specs.Sizes.{Allowed};
ghost use Rattle.reply.specs.Reply.{header_from, header_of};

use params::Params;
use reply_sections::put_words;

fn header_words(p: Params, pools: u32, effects: u32, info: u32, total: u32) -> [u32; 16]
    requires allowed { Allowed p }
    requires pools_bound { pools ≤ 320 }
    ensures { result ≡ header_from p pools effects info total }
{
    [
        p.revision,
        0xb0,
        pools * 0x10,
        p.voices * 0x10,
        0,
        effects,
        0,
        p.sinks * 0x20,
        0x10,
        0,
        info,
        0,
        0,
        0,
        0,
        total,
    ]
}

pub fn write_header(p: Params, expected: u32, out: &mut [u8])
    requires allowed { Allowed p }
    requires in_bounds { 0x40 ≤ length out.old }
    ensures { out.new ≡ put out.old 0 (header_of p expected) }
{
    let pools = p.memory_pools();
    let effects = p.effects_bytes(expected) as u32;
    let info = p.render_info_size() as u32;
    let total = p.reply_length(expected) as u32;
    put_words(out, 0, &header_words(p, pools, effects, info, total));
}
