// The floats of a new state: rows of voices and channel resources, and behind them those of the desk: mixes, sinks and destinations.
ghost use Rattle.std.specs.Prelude.{◌≡◌, ◌+◌, ◌*◌, ◌≤◌, length};
ghost use Rattle.rows.specs.Rows.{put};
ghost use Rattle.params.specs.Sizes.{Allowed};
ghost use Rattle.state.specs.State.{floats_of};
ghost use Rattle.opened.specs.Opened.{opened_floats};
ghost use Rattle.opened.specs.Parts.{mix_floats, desk_floats};

use crate::repeated::repeat;
use params::Params;

// n mixes, from `at` on: volume, and 576 volumes.
fn put_mixes(floats: &mut [f32], at: usize, n: usize)
    requires { at + n * 577 ≤ length floats.old }
    ensures { floats.new ≡ put floats.old at (mix_floats n) }
{
    let mut row = [0.0f32; 577];
    row[0] = 1.0;
    repeat(floats, at, n, &row);
}

// The desk's rows, from `at` on.
fn put_desk(floats: &mut [f32], at: usize, mixes: usize, sinks: usize, destinations: usize)
    requires { at + (mixes * 577 + (sinks * 4 + destinations * 48)) ≤ length floats.old }
    ensures { floats.new ≡ put floats.old at (desk_floats mixes sinks destinations) }
{
    let sinks_at = at + mixes * 577;
    let destinations_at = sinks_at + sinks * 4;
    put_mixes(floats, at, mixes);
    rows::fill(floats, sinks_at, sinks * 4, 0.0);
    rows::fill(floats, destinations_at, destinations * 48, 0.0);
}

pub fn open_floats(p: Params, floats: &mut [f32])
    requires allowed { Allowed p }
    requires floats_len { length floats.old ≡ floats_of p }
    ensures { floats.new ≡ opened_floats p }
{
    let voices = p.voices as usize;
    let mixes = p.sub_mixes as usize + 1;
    let resources = voices * 4;
    let desk = resources + voices * 48;
    rows::fill(floats, 0, resources, 0.0);
    rows::fill(floats, resources, voices * 48, 0.0);
    put_desk(
        floats,
        desk,
        mixes,
        p.sinks as usize,
        p.splitter_destinations as usize,
    );
}
