// Whether the rows of the mixes, sinks, splitters and destinations are whole.
ghost use Rattle.std.specs.Prelude.{◌≡◌, ◌+◌, ◌*◌, ◌≤◌, ◌<◌, length};
ghost use Rattle.row_tests.specs.Desk.{mix_whole, mixes_whole, sinks_whole, lists_whole};

use crate::limits::{row_within, rows_within};

// used and buffer_count
const MIX_LIMITS: [(usize, u32); 2] = [(0, 1), (1, 24)];

// used, device, input count and downmix given
const SINK_LIMITS: [(usize, u32); 4] = [(0, 1), (1, 1), (2, 6), (9, 1)];

// Mix m, where the mixes before it have `offset` buffers.
fn mix_whole(mixes: &[u32], m: usize, offset: u32) -> bool
    requires { m * 5 + 5 ≤ length mixes.now }
    ensures { result ≡ mix_whole mixes.now m offset }
{
    row_within(mixes, m * 5, 5, &MIX_LIMITS) && mixes[m * 5 + 4] == offset
}

pub fn mixes_whole(mixes: &[u32], n: usize) -> bool
    requires n_bound { n ≤ 32 }
    requires n_in_bounds { n * 5 ≤ length mixes.now }
    ensures { result ≡ mixes_whole n mixes.now }
{
    let mut offset: u32 = 0; // the buffers of the mixes before m
    for m in 0..n {
        if !mix_whole(mixes, m, offset) {
            return false;
        }
        offset += mixes[m * 5 + 1];
    }
    true
}

pub fn sinks_whole(sinks: &[u32], n: usize) -> bool
    requires { n * 10 ≤ length sinks.now }
    ensures { result ≡ sinks_whole n sinks.now }
{
    rows_within(sinks, 0, n, 10, &SINK_LIMITS)
}

// The rows of the splitters, and behind them those of the destinations.
pub fn lists_whole(lists: &[u32], ns: usize, nd: u32) -> bool
    requires { ns * 129 + nd * 2 ≤ length lists.now }
    ensures { result ≡ lists_whole ns nd lists.now }
{
    rows_within(lists, 0, ns, 129, &[(0, nd)])
        && rows_within(lists, ns * 129, nd as usize, 2, &[(0, 1)])
}
