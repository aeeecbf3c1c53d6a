// Sample memory in ranges: three numbers for each (base, start, size), ascending by base, each with a part of one lent slice.
#![tactic(auto)]

ghost use Rattle.std.specs.Prelude.{◌≡◌, ◌+◌, map, nat_le};
ghost use Rattle.ranges.specs.Ranges.{range, range_from, ranges_of, next_at, next_left, readable_of};
ghost use Rattle.ranges.specs.Questions.{follows as follows_of, follow as follow_of, laid_of, near_of};
ghost use Rattle.ranges.specs.Stretch.{stretch_of};

// The numbers of a range: its base, where its part starts in the slice, and its size.
const NUMBERS: usize = 3;

// The most ranges that sample memory may have.
const MOST: usize = 16;

// The ranges, three numbers each; one or two that are left over are no range.
pub fn triples(ranges: &[u64]) -> &[[u64; NUMBERS]]
    ensures { map range_from result.now ≡ ranges_of ranges.now }
{
    ranges.as_chunks::<NUMBERS>().0
}

// Where a read has got to: the next address, and how many bytes are left.
#[derive(Clone, Copy)]
pub struct Reach {
    pub at: u64,
    pub left: u64,
}

// Where a read has got to when one range has given what it has from the place `at` on, of `left` bytes.
pub fn pass(base: u64, size: u64, at: u64, left: u64) -> Reach
    ensures { (result.at ≡ next_at base size at) × (result.left ≡ next_left base size at left) }
{
    if at < base {
        return Reach { at, left }; // the place is below the range
    }
    let gone = at - base;
    if size <= gone {
        return Reach { at, left }; // past it, or the range is empty
    }
    let room = size - gone;
    let end = base.wrapping_add(size);
    if left <= room {
        return Reach { at: end, left: 0 };
    }
    Reach {
        at: end,
        left: left - room,
    }
}

// Whether a read of len bytes at addr succeeds: each of its bytes lies in a range, or it takes none. No byte of memory takes part.
pub fn readable(ranges: &[u64], addr: u64, len: u64) -> bool
    ensures { result ≡ readable_of (ranges_of ranges.now) addr len }
{
    let mut at = addr;
    let mut left = len;
    for &[base, _, size] in triples(ranges) {
        if left == 0 {
            break;
        }
        let r = pass(base, size, at, left);
        at = r.at;
        left = r.left;
    }
    left == 0
}

// Where in the slice an address lies, and how many bytes its range has from there on.
#[derive(Clone, Copy, Debug, PartialEq, Eq)]
pub struct Stretch {
    pub at: u64,
    pub room: u64,
}

// The stretch of an address, in the first range that has it.
pub fn stretch_at(ranges: &[u64], addr: u64) -> Option<Stretch>
    ensures { result ≡ stretch_of (ranges_of ranges.now) addr }
{
    for &[base, start, size] in triples(ranges) {
        if base <= addr && addr - base < size {
            let gone = addr - base;
            return Some(Stretch {
                at: start.wrapping_add(gone),
                room: size - gone,
            });
        }
    }
    None
}

// Whether `count` numbers from `from` on end at `limit` or before. No sum is made, so that none goes round.
fn ends_by(from: u64, count: u64, limit: u64) -> bool
    ensures { result ≡ nat_le (from + count) limit }
{
    from <= limit && count <= limit - from
}

// Whether a range follows one of `size` at `before`: it begins at or after that one's end, and its part lies inside n bytes.
fn follows(n: u64, before: u64, size: u64, base: u64, start: u64, length: u64) -> bool
    ensures { result ≡ follows_of n before size (range base start length) }
{
    ends_by(before, size, base) && ends_by(start, length, n)
}

// Whether each range follows the one before, the first from address 0 on.
fn follow(ranges: &[u64], n: u64) -> bool
    ensures { result ≡ follow_of n 0 0 (ranges_of ranges.now) }
{
    let mut before = 0u64;
    let mut size = 0u64;
    for &[base, start, length] in triples(ranges) {
        if !follows(n, before, size, base, start, length) {
            return false;
        }
        before = base;
        size = length;
    }
    true
}

// Question 13: at most 16 ranges, ascending with no address in two, each with its part inside a slice of n bytes.
pub fn laid(ranges: &[u64], n: u64) -> bool
    ensures { result ≡ laid_of n (ranges_of ranges.now) }
{
    ranges.len() / NUMBERS <= MOST && follow(ranges, n)
}

// Question 5, of every range: it ends at 2^63 or before.
pub fn near(ranges: &[u64]) -> bool
    ensures { result ≡ near_of (ranges_of ranges.now) }
{
    for &[base, _, size] in triples(ranges) {
        if !ends_by(base, size, 0x8000_0000_0000_0000) {
            return false;
        }
    }
    true
}
