// A title's update block and a click track's as one block.
#![tactic(auto)]

mod apart;
mod block;
mod marks;
mod pieces;

ghost use Rattle.std.specs.Prelude.{◌≡◌};
ghost use Rattle.merging.specs.Answer.{merge_number, merge_call, merge_seen};

use params::Params;

// Bytes of a channel resource.
pub const RESOURCE_IN: usize = 0x70;

#[derive(Clone, Copy, Debug, PartialEq, Eq)]
pub enum MergeError {
    // A count is not allowed.
    Counts,
    // A voice is in use in both blocks.
    Voices,
    // A channel resource is named from both blocks.
    Channels,
    // The output is shorter than the block.
    Output,
}

impl MergeError {
    // The number of the question that was answered "no".
    pub fn number(self) -> u32
        ensures { result ≡ merge_number self }
    {
        match self {
            MergeError::Counts => 2,
            MergeError::Voices => 16,
            MergeError::Channels => 17,
            MergeError::Output => 18,
        }
    }
}

// Makes one update block of a title's and a click track's, for a renderer with these parameters, at the front of the output.
// Returns the block's size.
pub fn merge(p: Params, title: &[u8], click: &[u8], output: &mut [u8]) -> Result<usize, MergeError>
    ensures { merge_seen result output.new ≡ merge_call p title.now click.now output.old }
{
    if !whole::counts_allowed(p) {
        return Err(MergeError::Counts);
    }
    let n = p.voices as usize;
    let t = apart::voices_section(title);
    let c = apart::voices_section(click);
    if !apart::voices_apart(n, t, c) {
        return Err(MergeError::Voices);
    }
    let mut from_title = [false; marks::MOST_MARKS];
    marks::mark_named(n, t, &mut from_title);
    let mut from_click = [false; marks::MOST_MARKS];
    marks::mark_named(n, c, &mut from_click);
    if !apart::marks_apart(n, &from_title, &from_click) {
        return Err(MergeError::Channels);
    }
    block::put_block(n, title, click, &from_click, output)
}
