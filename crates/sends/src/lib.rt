// A row sent to several rows of the mix buffers: the inner loops of mixer.rs `render_voice` and `render_mixes`.
#![tactic(auto)]

ghost use Rattle.std.specs.Prelude.{◌≡◌, ◌^◌, ◌≤◌, ◌<◌, length};
ghost use Rattle.sends.specs.Sends.{spread, gain_at, scaled_at};

// The n samples of src to the `count` rows from `offset` on, to the j-th with a gain that goes from from[j] to to[j].
pub fn send_moving(
    buffers: &mut [f32],
    offset: usize,
    count: usize,
    n: usize,
    src: &[f32],
    from: &[f32],
    to: &[f32],
)
    requires fact_1 { (offset < 2 ^ 16) × (count ≤ 24) × (n < 2 ^ 24) × (n ≤ length src.now) }
    requires fact_2 { (count ≤ length from.now) × (count ≤ length to.now) }
    ensures { buffers.new ≡ spread (gain_at from.now) (gain_at to.now) offset n src.now count buffers.old }
{
    for j in 0..count {
        gain::mix_into(buffers, offset + j, n, src, from[j], to[j]);
    }
}

// The n samples of src to the `count` rows from `offset` on, to the j-th with the gain volume * volumes[j].
pub fn send_scaled(
    buffers: &mut [f32],
    offset: usize,
    count: usize,
    n: usize,
    src: &[f32],
    volume: f32,
    volumes: &[f32],
)
    requires fact_1 { (offset < 2 ^ 16) × (count ≤ 24) × (n < 2 ^ 24) × (n ≤ length src.now) }
    requires fact_2 { count ≤ length volumes.now }
    ensures { buffers.new ≡ spread (scaled_at volume volumes.now) (scaled_at volume volumes.now) offset n src.now count buffers.old }
{
    for j in 0..count {
        let v = volume * volumes[j];
        gain::mix_into(buffers, offset + j, n, src, v, v);
    }
}
