// mixer.rs `render_mixes`: the sub-mixes in their order, then the final mix's volume.
#![tactic(auto)]

ghost use Rattle.std.specs.Prelude.{◌≡◌, map, ℕ, ◌≤◌, ◌<◌, length, get_or};
ghost use Rattle.std.specs.Float.{binary32};
ghost use Rattle.std.specs.Float.Ieee.{mul};
ghost use Rattle.mixing.specs.Mixing.{run_mixes, final_volume, mixed_down};

use sub_mix::Mixer;

// The sub-mixes of `order`, one after the other.
fn run_mixes(buffers: &mut [f32], src: &mut [f32], mixer: &Mixer, order: &[u32])
    requires samples { length src.old ≤ 256 }
    requires mixes { (k : ℕ) → k < length order.now → get_or order.now k 0 < mixer.now.desk.mixes.n }
    ensures { let t = mixer.now in
        let mixes = t.desk.mixes in
        let lists = t.desk.lists in
        buffers.new ≡ run_mixes (length src.old) mixes.n mixes.words.now t.volumes.now lists.ns lists.nd lists.words.now t.destinations.now
        order.now buffers.old }
{
    for m in order {
        sub_mix::run_mix(buffers, src, mixer, *m as usize);
    }
}

// Each sample times v.
fn scale(s: &mut [f32], v: f32)
    ensures { s.new ≡ map (λ x. mul binary32 x v) s.old }
{
    for x in s.iter_mut() {
        *x *= v;
    }
}

// The final mix's volume, on its buffers: they come first.
fn final_volume(buffers: &mut [f32], n: usize, mixer: &Mixer)
    requires { n ≤ 256 }
    ensures { buffers.new ≡ final_volume n mixer.now.desk.mixes.words.now mixer.now.volumes.now buffers.old }
{
    let v = mixer.volume(0);
    if v == 1.0 {
        return;
    }
    let count = mixer.desk.mixes.buffer_count(0) * n;
    let k = count.min(buffers.len());
    scale(&mut buffers[..k], v);
}

// `render_mixes` with room lent for the order and for the distances, a word a mix each.
fn render_mixes_in(
    buffers: &mut [f32],
    src: &mut [f32],
    mixer: &Mixer,
    order: &mut [u32],
    distances: &mut [u32],
)
    requires samples { length src.old ≤ 256 }
    requires room { (length order.old ≡ mixer.now.desk.mixes.n) × (length distances.old ≡ mixer.now.desk.mixes.n) }
    ensures { let t = mixer.now in
        let mixes = t.desk.mixes in
        let lists = t.desk.lists in
        buffers.new ≡ mixed_down (length src.old) mixes.n mixes.words.now t.volumes.now lists.ns lists.nd lists.words.now t.destinations.now
        buffers.old }
{
    let count = desk_order::mix_order(order, distances, &mixer.desk);
    run_mixes(buffers, src, mixer, &order[..count]);
    final_volume(buffers, src.len(), mixer);
}

// The sub-mixes in their order, then the final mix's volume. src is room for one row, of as many samples as a render has; what it holds
// afterwards is free.
pub fn render_mixes(buffers: &mut [f32], src: &mut [f32], mixer: &Mixer)
    requires { length src.old ≤ 256 }
    ensures { let t = mixer.now in
        let mixes = t.desk.mixes in
        let lists = t.desk.lists in
        buffers.new ≡ mixed_down (length src.old) mixes.n mixes.words.now t.volumes.now lists.ns lists.nd lists.words.now t.destinations.now
        buffers.old }
{
    let n = mixer.desk.mixes.n;
    if n == 1 {
        final_volume(buffers, src.len(), mixer); // there is no sub-mix
        return;
    }
    let mut order = [0u32; 32];
    let mut distances = [0u32; 32];
    render_mixes_in(buffers, src, mixer, &mut order[..n], &mut distances[..n]);
}
