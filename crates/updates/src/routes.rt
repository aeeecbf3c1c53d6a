// Splitters, mixes and sinks, each on the rows of its kind in the state's words and floats.
ghost use Rattle.std.specs.Prelude.{◌≡◌, ◌+◌, ◌^◌, ◌<◌};
ghost use Rattle.params.specs.Sections.{Near};
ghost use Rattle.updates.specs.Update.{DeskUpdatable, desk, lists_size, with_lists, with_mixes, with_sinks, after_desk};

use params::{Params, Sections};

// `update_splitters`: how many bytes the section takes.
fn update_splitters(p: Params, d: &[u8], words: &mut [u32], floats: &mut [f32]) -> usize
    requires { DeskUpdatable p (desk words.old floats.old) }
    ensures floats_after { desk words.new floats.new ≡ with_lists p d.now (desk words.old floats.old) }
    ensures value { (result ≡ lists_size p d.now (desk words.old floats.old)) × (result < 2 ^ 63 + 600) }
{
    let at = state::places_of(p);
    let ns = p.splitters as usize;
    let nd = p.splitter_destinations as usize;
    desk_updates::lists(
        d,
        ns,
        nd,
        words,
        at.list_words,
        floats,
        at.destination_floats,
    )
}

fn update_mixes(p: Params, d: &[u8], words: &mut [u32], floats: &mut [f32])
    requires { DeskUpdatable p (desk words.old floats.old) }
    ensures { desk words.new floats.new ≡ with_mixes p d.now (desk words.old floats.old) }
{
    let at = state::places_of(p);
    let revision = p.revision_number();
    desk_updates::mixes(
        d,
        revision,
        at.mixes,
        words,
        at.mix_words,
        floats,
        at.mix_floats,
    );
}

fn update_sinks(p: Params, d: &[u8], words: &mut [u32], floats: &mut [f32])
    requires { DeskUpdatable p (desk words.old floats.old) }
    ensures { desk words.new floats.new ≡ with_sinks p d.now (desk words.old floats.old) }
{
    let at = state::places_of(p);
    desk_updates::sinks(
        d,
        p.sinks as usize,
        words,
        at.sink_words,
        floats,
        at.sink_floats,
    );
}

// The three, from where the splitters begin.
pub fn update_desk(p: Params, s: Sections, input: &[u8], words: &mut [u32], floats: &mut [f32])
    requires near { Near s }
    requires updatable { DeskUpdatable p (desk words.old floats.old) }
    ensures { desk words.new floats.new ≡ after_desk p s input.now (desk words.old floats.old) }
{
    let size = update_splitters(p, fields::rest(input, s.splitters_at), words, floats);
    let at = s.splitters_at + size;
    update_mixes(p, fields::section(input, at, s.mixes_size), words, floats);
    let sinks = fields::section(input, at + s.mixes_size, s.sinks_size);
    update_sinks(p, sinks, words, floats);
}
