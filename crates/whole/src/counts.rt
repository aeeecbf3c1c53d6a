// Questions 1 and 2: the counts that a renderer may be opened with.
ghost use Rattle.std.specs.Prelude.{◌≡◌};
ghost use Rattle.whole.specs.Counts.{samples_allowed, counts_allowed};

use params::Params;

// Samples per render 1 to 256.
pub fn samples_allowed(p: Params) -> bool
    ensures { result ≡ samples_allowed p }
{
    (1..=256).contains(&p.sample_count)
}

// All other counts.
pub fn counts_allowed(p: Params) -> bool
    ensures { result ≡ counts_allowed p }
{
    p.mix_buffers <= 96
        && p.sub_mixes <= 31
        && p.voices <= 64
        && p.sinks <= 8
        && p.effects <= 64
        && p.splitters <= 32
        && p.splitter_destinations <= 128
}
