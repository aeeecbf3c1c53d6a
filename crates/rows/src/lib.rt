// Rows of a lent slice, of any width and any element: copied out of it, put into it, and filled with one value. These are loops, since
// `copy_from_slice` calls `memmove`, and the library needs `memcpy` and `memset` alone.
#![tactic(auto)]

ghost use Rattle.std.specs.Prelude.{◌+◌, ◌≤◌, ◌≡◌, length, replicate};
ghost use Rattle.rows.specs.Rows.{put, part};

// The elements of the slice from `at` on, as many as the row has.
pub fn copy_out<E: Copy>(row: &mut [E], s: &[E], at: usize)
    requires { at + length row.old ≤ length s.now }
    ensures { row.new ≡ part (length row.old) at s.now }
{
    let width = row.len();
    for k in 0..width {
        row[k] = s[at + k];
    }
}

// The row in place of as many elements of the slice from `at` on.
pub fn copy_in<E: Copy>(s: &mut [E], at: usize, row: &[E])
    requires { at + length row.now ≤ length s.old }
    ensures { s.new ≡ put s.old at row.now }
{
    for k in 0..row.len() {
        s[at + k] = row[k];
    }
}

// n times one value in place of as many elements of the slice from `at` on.
pub fn fill<E: Copy>(s: &mut [E], at: usize, n: usize, value: E)
    requires { at + n ≤ length s.old }
    ensures { s.new ≡ put s.old at (replicate n value) }
{
    for k in 0..n {
        s[at + k] = value;
    }
}
