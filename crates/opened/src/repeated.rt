// n copies of a row in place of the elements from `at` on.
ghost use Rattle.std.specs.Prelude.{◌≡◌, ◌+◌, ◌*◌, ◌≤◌, length};
ghost use Rattle.rows.specs.Rows.{put};
ghost use Rattle.rows.specs.Tables.{joined};

pub fn repeat<E: Copy>(s: &mut [E], at: usize, n: usize, row: &[E])
    requires { at + n * length row.now ≤ length s.old }
    ensures { s.new ≡ put s.old at (joined n (λ _. row.now)) }
{
    for k in 0..n {
        rows::copy_in(s, at + k * row.len(), row);
    }
}
