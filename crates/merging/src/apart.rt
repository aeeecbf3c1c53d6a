// Questions 16 and 17: whether two blocks have no voice and no channel resource in common.
ghost use Rattle.std.specs.Prelude.{not, ◌&&◌, false, ◌≡◌, ◌≤◌, ◌<◌, length, get_or};
ghost use Rattle.params.specs.Sections.{voices_section};
ghost use Rattle.row_tests.specs.Tests.{all};
ghost use Rattle.merging.specs.Merge.{used_at, voices_apart};

use params::Sections;
use voice_records::record_used;
use voices::VOICE_IN;

// The voices' section of a block; empty where it reaches past the end.
pub fn voices_section(input: &[u8]) -> &[u8]
    ensures { result.now ≡ voices_section input.now }
{
    let s = Sections::read(input);
    fields::section(input, s.voices_at, s.voices_size)
}

// Whether voice k is in use in at most one of two sections.
fn records_apart(k: usize, d: &[u8], e: &[u8]) -> bool
    requires { k < 64 }
    ensures { result ≡ not (used_at d.now k && used_at e.now k) }
{
    let one = fields::section(d, k * VOICE_IN, VOICE_IN);
    let other = fields::section(e, k * VOICE_IN, VOICE_IN);
    !(record_used(one) && record_used(other))
}

// Whether each of n voices is.
pub fn voices_apart(n: usize, d: &[u8], e: &[u8]) -> bool
    requires { n ≤ 64 }
    ensures { result ≡ voices_apart n d.now e.now }
{
    (0..n).all(|k| records_apart(k, d, e))
}

// Whether each of the first n marks is set in at most one of two lists.
pub fn marks_apart(n: usize, a: &[bool], b: &[bool]) -> bool
    requires { (n ≤ length a.now) × (n ≤ length b.now) }
    ensures { result ≡ all n (λ j. not (get_or a.now j false && get_or b.now j false)) }
{
    (0..n).all(|j| !(a[j] && b[j]))
}
