// The reply's memory pools: a state and zeros for each.
ghost use Rattle.std.specs.Prelude.{◌≡◌, ◌+◌, ◌*◌, ◌^◌, ◌≤◌, ◌<◌, length};
ghost use Rattle.rows.specs.Rows.{put};
ghost use Rattle.reply_sections.specs.Pools.{granted, pool_word, pool_row, pools_bytes};

const MEMORY_POOL_IN: usize = 0x20;

const POOL_REQUEST_DETACH: u32 = 2;

const POOL_DETACHED: u32 = 3;

const POOL_REQUEST_ATTACH: u32 = 4;

const POOL_ATTACHED: u32 = 5;

// The state that a pool has after its request.
#[tactic(auto, using(std::proofs::lemmas::Bool::Decides::nat_tests), unfolding(crate::specs::Pools::granted))]
fn grant(state: u32) -> u32
    ensures { result ≡ granted state }
{
    match state {
        POOL_REQUEST_ATTACH => POOL_ATTACHED,
        POOL_REQUEST_DETACH => POOL_DETACHED,
        other => other,
    }
}

// Pool i's state in the input; 0 past the pools' section, which is `size` bytes and stands behind the behaviour's.
fn pool_word(behavior: usize, size: usize, input: &[u8], i: usize) -> u32
    requires behavior_bound { behavior < 2 ^ 32 }
    requires i_bound { i ≤ 320 }
    ensures { result ≡ pool_word behavior size input.now i }
{
    if i * MEMORY_POOL_IN < size {
        fields::u32_at(
            input,
            params::HEADER_SIZE + behavior + i * MEMORY_POOL_IN + 0x10,
        )
    } else {
        0
    }
}

fn put_pool(behavior: usize, size: usize, input: &[u8], i: usize, out: &mut [u8], at: usize)
    requires behavior_bound { behavior < 2 ^ 32 }
    requires i_bound { i ≤ 320 }
    requires at_in_bounds { at + 0x10 ≤ length out.old }
    ensures { out.new ≡ put out.old at (pool_row behavior size input.now i) }
{
    let state = grant(pool_word(behavior, size, input, i));
    fields::put_u32(out, at, state);
    rows::fill(out, at + 4, 12, 0);
}

// n pools, from `at` on.
pub fn write_pools(n: usize, behavior: usize, size: usize, input: &[u8], out: &mut [u8], at: usize)
    requires n_bound { n ≤ 320 }
    requires behavior_bound { behavior < 2 ^ 32 }
    requires n_in_bounds { at + n * 0x10 ≤ length out.old }
    ensures { out.new ≡ put out.old at (pools_bytes n behavior size input.now) }
{
    for i in 0..n {
        put_pool(
            behavior,
            size,
            input,
            i,
            out,
            at + i * params::MEMORY_POOL_OUT,
        );
    }
}
