// Frames of six inputs.
ghost use Rattle.std.specs.Prelude.{◌≡◌, ◌++◌, ◌*◌, ◌≤◌, length, drop, get_or};
ghost use Rattle.std.specs.Float.{nan};
ghost use Rattle.sink.specs.Sink.{frames, side};

use crate::put_frame;

// The rows of a sink's six inputs, of n samples each.
#[derive(Clone, Copy)]
pub(crate) struct Six<'a> {
    pub(crate) left: &'a [f32],
    pub(crate) right: &'a [f32],
    pub(crate) centre: &'a [f32],
    pub(crate) low: &'a [f32],
    pub(crate) back_left: &'a [f32],
    pub(crate) back_right: &'a [f32],
    pub(crate) n: usize,
    ghost front_long: { (n ≤ length left.now) × (n ≤ length right.now) },
    ghost middle_long: { (n ≤ length centre.now) × (n ≤ length low.now) },
    ghost back_long: { (n ≤ length back_left.now) × (n ≤ length back_right.now) },
}

// A sample of one side, by the factors k: the side's own front and back, and what both have in common, the centre and the low one.
fn one_side(k: [f32; 4], front: f32, centre: f32, low: f32, back: f32) -> f32
    ensures { result ≡ side k front centre low back }
{
    let common = centre * k[1] + low * k[2];
    front * k[0] + common + back * k[3]
}

// The frames of six rows, by four factors.
pub(crate) fn surround(out: &mut [f32], rows: &Six, k: [f32; 4])
    requires { 2 * rows.now.n ≤ length out.old }
    ensures { out.new ≡ frames
        (λ i. side k (get_or rows.now.left.now i nan) (get_or rows.now.centre.now i nan) (get_or rows.now.low.now i nan) (get_or rows.now.back_left.now i nan))
        (λ i. side k (get_or rows.now.right.now i nan) (get_or rows.now.centre.now i nan) (get_or rows.now.low.now i nan) (get_or rows.now.back_right.now i nan))
        rows.now.n ++ drop (2 * rows.now.n) out.old }
{
    for i in 0..rows.n {
        let (centre, low) = (rows.centre[i], rows.low[i]);
        let l = one_side(k, rows.left[i], centre, low, rows.back_left[i]);
        let r = one_side(k, rows.right[i], centre, low, rows.back_right[i]);
        put_frame(out, i, l, r);
    }
}
