// The voice's volume, which goes over one render from what it was to what it is.
ghost use Rattle.std.specs.Prelude.{◌≡◌, ◌+◌, ◌*◌, ◌≤◌, length};
ghost use Rattle.voice_sends.specs.Sending.{ramped_row, ramped_rows};

// Row c of n samples.
fn ramp_row(out: &mut [f32], n: usize, c: usize, from: f32, to: f32)
    requires { (c * n + n ≤ length out.old) × (n ≤ 256) }
    ensures { out.new ≡ ramped_row from to n c out.old }
{
    let a = c * n;
    let e = a + n;
    gain::ramp(&mut out[a..e], from, to);
}

// The row of each channel.
pub fn ramp_rows(out: &mut [f32], n: usize, channels: usize, from: f32, to: f32)
    requires { (channels * n ≤ length out.old) × (n ≤ 256) × (channels ≤ 6) }
    ensures { out.new ≡ ramped_rows from to n channels out.old }
{
    for c in 0..channels {
        ramp_row(out, n, c, from, to);
    }
}
