// The merged block, written once it is known to fit.
ghost use Rattle.std.specs.Prelude.{◌≡◌, ◌+◌, ◌*◌, ◌≤◌, ◌<◌, ◌++◌, length};
ghost use Rattle.rows.specs.Rows.{put};
ghost use Rattle.rows.specs.Tables.{joined};
ghost use Rattle.params.specs.Sections.{voices_section, Near};
ghost use Rattle.merging.specs.Merge.{block_header, resource_size, record_size, title_sections, written_header, merged_pools};
ghost use Rattle.merging.specs.Merge.{merged_resource, merged_record, merged_block};
ghost use Rattle.merging.specs.Marks.{NamesMarked};
ghost use Rattle.merging.specs.Answer.{merge_done, merge_seen};

use crate::pieces::{put_padded, put_records, put_resources};
use crate::{MergeError, RESOURCE_IN};
use params::{HEADER_SIZE, Sections};
use voices::VOICE_IN;

// Where the header has the sizes of the voices' section and of the channel resources.
const VOICES_SIZE: usize = 0x0c;

const RESOURCES_SIZE: usize = 0x10;

// Where the title's sections lie, by its header filled up with zeros.
fn title_sections(title: &[u8]) -> Sections
    ensures value { result ≡ title_sections title.now }
    ensures near { Near result }
{
    let mut head = [0u8; HEADER_SIZE];
    put_padded(&mut head, 0, HEADER_SIZE, title, 0);
    Sections::read(&head)
}

// The title's header with the sizes of n records and n channel resources.
fn put_header(head: &mut [u8], n: usize, title: &[u8])
    requires { (n ≤ 64) × (length head.old ≡ block_header) }
    ensures { head.new ≡ written_header n title.now }
{
    put_padded(head, 0, HEADER_SIZE, title, 0);
    fields::put_u32(head, VOICES_SIZE, (n * VOICE_IN) as u32);
    fields::put_u32(head, RESOURCES_SIZE, (n * RESOURCE_IN) as u32);
}

// Header, behaviour and pools.
fn put_front(output: &mut [u8], n: usize, title: &[u8], pools: usize)
    requires n_bound { n ≤ 64 }
    requires pools_value { pools ≡ (title_sections title.now).behavior_size + (title_sections title.now).pools_size }
    requires pools_in_bounds { block_header + pools ≤ length output.old }
    ensures { output.new ≡ put output.old 0
        (written_header n title.now ++ merged_pools title.now) }
{
    put_header(&mut output[..HEADER_SIZE], n, title);
    put_padded(output, HEADER_SIZE, pools, title, HEADER_SIZE);
}

// Channel resources and voices.
fn put_sections(output: &mut [u8], at: usize, n: usize, title: &[u8], click: &[u8], named: &[bool])
    requires n_bound { (n ≤ 64) × (n ≤ length named.now) × NamesMarked n (voices_section click.now) named.now }
    requires record_size_in_bounds { at + n * resource_size + n * record_size ≤ length output.old }
    ensures { output.new ≡ put output.old at
        (joined n (merged_resource n title.now click.now)
        ++ joined n (merged_record title.now click.now)) }
{
    let t = Sections::read(title);
    let c = Sections::read(click);
    let title_resources = fields::section(title, t.resources_at, t.resources_size);
    let click_resources = fields::section(click, c.resources_at, c.resources_size);
    put_resources(output, at, n, named, title_resources, click_resources);
    let title_voices = fields::section(title, t.voices_at, t.voices_size);
    let click_voices = fields::section(click, c.voices_at, c.voices_size);
    put_records(output, at + n * RESOURCE_IN, n, title_voices, click_voices);
}

// The block at the front of the output, where it fits.
pub fn put_block(
    n: usize,
    title: &[u8],
    click: &[u8],
    named: &[bool],
    output: &mut [u8],
) -> Result<usize, MergeError>
    requires { (n ≤ 64) × (n ≤ length named.now) × NamesMarked n (voices_section click.now) named.now }
    ensures { merge_seen result output.new
        ≡ merge_done (merged_block n title.now click.now) output.old }
{
    let s = title_sections(title);
    let pools = s.behavior_size + s.pools_size;
    let resources_at = HEADER_SIZE + pools;
    let rest_at = resources_at + n * (RESOURCE_IN + VOICE_IN);
    let rest = fields::rest(title, s.effects_at);
    let size = rest_at + rest.len();
    if output.len() < size {
        return Err(MergeError::Output);
    }
    put_front(output, n, title, pools);
    put_sections(output, resources_at, n, title, click, named);
    rows::copy_in(output, rest_at, rest);
    Ok(size)
}
