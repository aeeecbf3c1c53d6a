// The updates of channel resources, splitters, mixes and sinks, each on the rows of its kind, lent from where they begin in the state's
// slices: at a in the words, at c in the floats.
#![tactic(auto)]

ghost use Rattle.std.specs.Prelude.{◌≡◌, ◌+◌, ◌*◌, ◌^◌, ◌≤◌, ◌<◌, length};
ghost use Rattle.rows.specs.Rows.{part, put};
ghost use Rattle.desk_mixes.specs.Mixes.{MixesSized};
ghost use Rattle.desk_updates.specs.DeskUpdate.{resources_at, mix_rows_at, sink_rows_at, list_rows_at};

// n channel resources.
pub fn resources(d: &[u8], n: usize, floats: &mut [f32], c: usize)
    requires { (n ≤ 64) × (c + n * 48 ≤ length floats.old) }
    ensures { floats.new ≡ put floats.old c (resources_at d.now n c floats.old) }
{
    let e = c + n * 48;
    desk::update_channel_resources(d, n, &mut floats[c..e]);
}

// ns splitters and nd destinations: how many bytes the section takes.
pub fn lists(
    d: &[u8],
    ns: usize,
    nd: usize,
    words: &mut [u32],
    a: usize,
    floats: &mut [f32],
    c: usize,
) -> usize
    requires { (ns ≤ 32) × (nd ≤ 128) × (a + (ns * 129 + nd * 2) ≤ length words.old) × (c + nd * 48 ≤ length floats.old) }
    ensures value { (result ≡ (list_rows_at d.now ns nd a words.old c floats.old).at) × (result < 2 ^ 63 + 600) }
    ensures words_after { words.new ≡ put words.old a (list_rows_at d.now ns nd a words.old c floats.old).words }
    ensures floats_after { floats.new ≡ put floats.old c (list_rows_at d.now ns nd a words.old c floats.old).floats }
{
    let b = a + (ns * 129 + nd * 2);
    let e = c + nd * 48;
    section::update_splitters(d, ns, nd, &mut words[a..b], &mut floats[c..e])
}

// n mixes.
pub fn mixes(
    d: &[u8],
    revision: u32,
    n: usize,
    words: &mut [u32],
    a: usize,
    floats: &mut [f32],
    c: usize,
)
    requires inside { (a + n * 5 ≤ length words.old) × (c + n * 577 ≤ length floats.old) }
    requires sized { MixesSized n (part (n * 5) a words.old) (part (n * 577) c floats.old) }
    ensures words_after { words.new ≡ put words.old a (mix_rows_at revision d.now n a words.old c floats.old).words }
    ensures floats_after { floats.new ≡ put floats.old c (mix_rows_at revision d.now n a words.old c floats.old).floats }
{
    let b = a + n * 5;
    let e = c + n * 577;
    desk_mixes::update_mixes(d, revision, n, &mut words[a..b], &mut floats[c..e]);
}

// n sinks.
pub fn sinks(d: &[u8], n: usize, words: &mut [u32], a: usize, floats: &mut [f32], c: usize)
    requires { (n ≤ 8) × (a + n * 10 ≤ length words.old) × (c + n * 4 ≤ length floats.old) }
    ensures words_after { words.new ≡ put words.old a (sink_rows_at d.now n a words.old c floats.old).words }
    ensures floats_after { floats.new ≡ put floats.old c (sink_rows_at d.now n a words.old c floats.old).floats }
{
    let b = a + n * 10;
    let e = c + n * 4;
    desk::update_sinks(d, n, &mut words[a..b], &mut floats[c..e]);
}
