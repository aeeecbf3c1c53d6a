// The reply's last sections: sinks, performance, behaviour and render info.
ghost use Rattle.std.specs.Prelude.{◌≡◌, ◌+◌, ◌*◌, ◌≤◌, length};
ghost use Rattle.rows.specs.Rows.{put};
ghost use Rattle.params.specs.Sizes.{Allowed, info_bytes};
ghost use Rattle.reply.specs.Reply.{rest_bytes, info_of};

use params::Params;

// Sinks, performance and behaviour: zeros.
pub fn write_rest(p: Params, out: &mut [u8], at: usize)
    requires allowed { Allowed p }
    requires sinks_in_bounds { at + (p.sinks * 0x20 + 0xc0) ≤ length out.old }
    ensures { out.new ≡ put out.old at (rest_bytes p) }
{
    let n = p.sinks as usize * params::SINK_OUT + params::PERFORMANCE_OUT + params::BEHAVIOR_OUT;
    rows::fill(out, at, n, 0);
}

// Render info, from revision 5: the elapsed renders.
pub fn write_info(p: Params, elapsed: u64, out: &mut [u8], at: usize)
    requires { at + info_bytes p ≤ length out.old }
    ensures { out.new ≡ put out.old at (info_of p elapsed) }
{
    if p.revision_number() >= 5 {
        fields::put_u64(out, at, elapsed);
        rows::fill(out, at + 8, 8, 0);
    }
}
