// The order of the sub-mixes as one value.
ghost use Rattle.std.specs.Prelude.{◌≡◌, ◌≤◌, length};
ghost use Rattle.desk_order.specs.DeskOrder.{mix_order};
ghost use Rattle.desk_order.specs.Listed.{listed_of};

use desk_rows::Desk;

// The sub-mixes that run, in their sequence, and zeros behind them.
#[derive(Clone, Copy)]
pub struct MixOrder {
    pub count: u32,
    pub mixes: [u32; 31],
}

// At most 31 numbers as a value.
fn listed(order: &[u32]) -> MixOrder
    requires { length order.now ≤ 31 }
    ensures { result ≡ listed_of order.now }
{
    let mut mixes = [0u32; 31];
    rows::copy_in(&mut mixes, 0, order);
    MixOrder {
        count: order.len() as u32,
        mixes,
    }
}

// `list_order` with room lent for the order and for the distances, a word a mix each.
fn list_order_in(desk: &Desk, order: &mut [u32], distances: &mut [u32]) -> MixOrder
    requires { (length order.old ≡ desk.now.mixes.n) × (length distances.old ≡ desk.now.mixes.n) }
    ensures { result ≡ listed_of (mix_order desk.now.mixes.n desk.now.lists.ns desk.now.lists.nd desk.now.mixes.words.now desk.now.lists.words.now) }
{
    let count = crate::mix_order(order, distances, desk);
    listed(&order[..count])
}

// The sub-mixes that run, in the order in which `render_mixes` takes them.
pub fn list_order(desk: &Desk) -> MixOrder
    ensures { result ≡ listed_of (mix_order desk.now.mixes.n desk.now.lists.ns desk.now.lists.nd desk.now.mixes.words.now desk.now.lists.words.now) }
{
    let n = desk.mixes.n;
    let mut order = [0u32; 32];
    let mut distances = [0u32; 32];
    list_order_in(desk, &mut order[..n], &mut distances[..n])
}
