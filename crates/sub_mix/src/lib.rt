// mixer.rs `render_mixes`, what one sub-mix does: its buffers go to its destination, or by its splitter's list.
#![tactic(auto)]

mod mixer;

ghost use Rattle.std.specs.Prelude.{◌≡◌, ◌+◌, ◌%◌, max, ◌≤◌, ◌<◌, length};
ghost use Rattle.rows.specs.Folds.{up_to};
ghost use Rattle.desk_rows.specs.DeskRows.{mix_buffers, mix_splitter, mix_offset, list_length, list_entry};
ghost use Rattle.sub_mix.specs.SubMix.{mix_volume, destination_volumes, send_row, send_buffer, send_entry, run_mix};

use desk_rows::MixRows;
pub use mixer::Mixer;

// Row `row` of the buffers, sent to the rows of mix `to`, to the j-th with the gain volume * volumes[j]. It is copied to src first: it may
// be one of those that it is sent to. A row has as many samples as src has room for.
fn send_row(
    buffers: &mut [f32],
    src: &mut [f32],
    row: usize,
    mixes: &MixRows,
    to: usize,
    volume: f32,
    volumes: &[f32],
)
    requires samples { length src.old ≤ 256 }
    requires within { (row ≤ 1024) × (to < mixes.now.n) × (length volumes.now ≡ 24) }
    ensures { buffers.new ≡ send_row (length src.old) mixes.now.words.now row to volume volumes.now buffers.old }
{
    let n = src.len();
    let at = row * n;
    let end = at + n;
    if end > buffers.len() {
        return;
    }
    let offset = mixes.offset(to);
    let count = mixes.buffer_count(to);
    rows::copy_out(src, buffers, at);
    sends::send_scaled(buffers, offset, count, n, src, volume, volumes);
}

// Buffer i of mix m, sent to mix `to`.
fn send_buffer(buffers: &mut [f32], src: &mut [f32], mixer: &Mixer, m: usize, to: usize, i: usize)
    requires samples { length src.old ≤ 256 }
    requires within { (m < mixer.now.desk.mixes.n) × (to < mixer.now.desk.mixes.n) × (i < 24) }
    ensures { buffers.new ≡ send_buffer (length src.old) mixer.now.desk.mixes.words.now mixer.now.volumes.now m to i buffers.old }
{
    let mixes = &mixer.desk.mixes;
    let row = mixes.offset(m) + i;
    let volume = mixer.volume(m);
    let volumes = mixer.buffer_volumes(m, i);
    send_row(buffers, src, row, mixes, to, volume, volumes);
}

// The buffers of mix m, sent to mix `to`.
fn send_buffers(buffers: &mut [f32], src: &mut [f32], mixer: &Mixer, m: usize, to: usize)
    requires samples { length src.old ≤ 256 }
    requires within { (m < mixer.now.desk.mixes.n) × (to < mixer.now.desk.mixes.n) }
    ensures { let words = mixer.now.desk.mixes.words.now in
        buffers.new ≡ up_to (send_buffer (length src.old) words mixer.now.volumes.now m to) (mix_buffers words m) buffers.old }
{
    for i in 0..mixer.desk.mixes.buffer_count(m) {
        send_buffer(buffers, src, mixer, m, to, i);
    }
}

// The row of mix m's buffer that its splitter's entry k takes.
fn row_of(mixes: &MixRows, m: usize, k: usize) -> usize
    requires { m < mixes.now.n }
    ensures { (result ≡ mix_offset mixes.now.words.now m + k % max (mix_buffers mixes.now.words.now m) 1) × (result ≤ 1024) }
{
    let count = mixes.buffer_count(m).max(1);
    mixes.offset(m) + k % count
}

// One of mix m's buffers, sent to mix `to` with the volumes of destination d, which is entry k of m's splitter.
fn send_destination(
    buffers: &mut [f32],
    src: &mut [f32],
    mixer: &Mixer,
    m: usize,
    k: usize,
    d: usize,
    to: usize,
)
    requires samples { length src.old ≤ 256 }
    requires within { (m < mixer.now.desk.mixes.n) × (to < mixer.now.desk.mixes.n) × (d < mixer.now.desk.lists.nd) }
    ensures { let words = mixer.now.desk.mixes.words.now in
        let row = mix_offset words m + k % max (mix_buffers words m) 1 in
        let volumes = destination_volumes mixer.now.destinations.now d in
        buffers.new ≡ send_row (length src.old) words row to (mix_volume mixer.now.volumes.now m) volumes buffers.old }
{
    let mixes = &mixer.desk.mixes;
    let row = row_of(mixes, m, k);
    let volume = mixer.volume(m);
    let volumes = mixer.destination_volumes(d);
    send_row(buffers, src, row, mixes, to, volume, volumes);
}

// One of mix m's buffers, sent to the mix of destination d, which is entry k of m's splitter.
fn send_entry(buffers: &mut [f32], src: &mut [f32], mixer: &Mixer, m: usize, k: usize, d: usize)
    requires samples { length src.old ≤ 256 }
    requires mix { m < mixer.now.desk.mixes.n }
    ensures { let t = mixer.now in
        let mixes = t.desk.mixes in
        let lists = t.desk.lists in
        buffers.new ≡ send_entry (length src.old) mixes.n mixes.words.now t.volumes.now lists.ns lists.nd lists.words.now t.destinations.now
        m k d buffers.old }
{
    let lists = &mixer.desk.lists;
    if !lists.configured(d) {
        return;
    }
    let to = lists.destination_mix(d) as usize;
    if to >= mixer.desk.mixes.n {
        return;
    }
    send_destination(buffers, src, mixer, m, k, d, to);
}

// The buffers of mix m, sent on by its splitter's list.
fn send_entries(buffers: &mut [f32], src: &mut [f32], mixer: &Mixer, m: usize)
    requires samples { length src.old ≤ 256 }
    requires mix { m < mixer.now.desk.mixes.n }
    requires splitter { mix_splitter mixer.now.desk.mixes.words.now m < mixer.now.desk.lists.ns }
    ensures { let t = mixer.now in
        let mixes = t.desk.mixes in
        let lists = t.desk.lists in
        let s = mix_splitter mixes.words.now m in
        buffers.new ≡ up_to
        (λ k. send_entry (length src.old) mixes.n mixes.words.now t.volumes.now lists.ns lists.nd lists.words.now t.destinations.now
        m k (list_entry lists.words.now s k))
        (list_length lists.words.now s) buffers.old }
{
    let lists = &mixer.desk.lists;
    let s = mixer.desk.mixes.splitter(m);
    for k in 0..lists.list_length(s) {
        let d = lists.list_entry(s, k);
        send_entry(buffers, src, mixer, m, k, d);
    }
}

// Sub-mix m: its buffers go to its destination, or by its splitter's list.
pub fn run_mix(buffers: &mut [f32], src: &mut [f32], mixer: &Mixer, m: usize)
    requires samples { length src.old ≤ 256 }
    requires mix { m < mixer.now.desk.mixes.n }
    ensures { let t = mixer.now in
        let mixes = t.desk.mixes in
        let lists = t.desk.lists in
        buffers.new ≡ run_mix (length src.old) mixes.n mixes.words.now t.volumes.now lists.ns lists.nd lists.words.now t.destinations.now
        m buffers.old }
{
    let mixes = &mixer.desk.mixes;
    let to = mixes.destination(m) as usize;
    if to != 0x7fff_ffff {
        if to < mixes.n {
            send_buffers(buffers, src, mixer, m, to);
        }
    } else if mixes.splitter(m) < mixer.desk.lists.ns {
        send_entries(buffers, src, mixer, m);
    }
}
