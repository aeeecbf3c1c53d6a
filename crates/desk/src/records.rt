// What the updates read of a record.
ghost use Rattle.std.specs.Prelude.{◌≡◌, ◌+◌, ◌*◌, ◌^◌, ◌≤◌, ◌<◌, length};
ghost use Rattle.rows.specs.Rows.{put};
ghost use Rattle.rows.specs.Tables.{table};
ghost use Rattle.desk.specs.Records.{float_at};

// n floats of the record, from o on, in place of those from `to` on.
pub fn put_floats(p: &[u8], o: usize, n: usize, floats: &mut [f32], to: usize)
    requires { (o + n * 4 < 2 ^ 64) × (to + n ≤ length floats.old) }
    ensures { floats.new ≡ put floats.old to (table n (float_at p.now o)) }
{
    for k in 0..n {
        floats[to + k] = fields::f32_at(p, o + k * 4);
    }
}
