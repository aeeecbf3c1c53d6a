// Fields of a row, each held to its limit.
ghost use Rattle.std.specs.Prelude.{◌≡◌, ◌+◌, ◌*◌, ◌≤◌, ◌<◌, length};
ghost use Rattle.row_tests.specs.Limits.{Table, within, rows_within};
ghost use Rattle.row_tests.specs.Pairs.{fields_of, limits_of};

// Of the row at a place, w wide, each field is at most its limit, by pairs of a field's place in the row and its limit.
pub fn row_within(s: &[u32], at: usize, w: usize, limits: &[(usize, u32)]) -> bool
    requires table { Table w (fields_of limits.now) (limits_of limits.now) }
    requires w_in_bounds { at + w ≤ length s.now }
    ensures { result ≡ within s.now at (fields_of limits.now) (limits_of limits.now) }
{
    for &(field, most) in limits {
        if most < s[at + field] {
            return false;
        }
    }
    true
}

// The same of n rows from a place on.
pub fn rows_within(s: &[u32], base: usize, n: usize, w: usize, limits: &[(usize, u32)]) -> bool
    requires table { Table w (fields_of limits.now) (limits_of limits.now) }
    requires w_in_bounds { base + n * w ≤ length s.now }
    ensures { result ≡ rows_within s.now base n w (fields_of limits.now) (limits_of limits.now) }
{
    for i in 0..n {
        if !row_within(s, base + i * w, w, limits) {
            return false;
        }
    }
    true
}
