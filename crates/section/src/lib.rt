// The splitter section, read by one reader that holds the block and its place. The place moves with every record: what reads a record takes
// the reader and gives it back moved on. What a record means is in the functions on slice and number of `splitters`, which these call.
#![tactic(auto)]

ghost use Rattle.std.specs.Prelude.{◌≡◌, ◌+◌, ◌*◌, ◌≤◌, ◌<◌, ◌^◌, length};
ghost use Rattle.fields.specs.Fields.{field_at};
ghost use Rattle.splitters.specs.Lists.{lists, splitter_step, splitters_from};
ghost use Rattle.splitters.specs.Destinations.{stride_of, left, destination_step, destinations_from};
ghost use Rattle.splitters.specs.Section.{Sized, records_from, records_of, splitters_of};

use splitters::{DESTINATION_MAGIC, SPLITTER_HEADER_MAGIC, SPLITTER_MAGIC};

#[derive(Clone, Copy)]
pub struct Reader<'a> {
    pub block: &'a [u8],
    pub at: usize,
}

// The destination's record at a place is read: where the next begins, `size` bytes on.
fn destination_at(
    d: &[u8],
    at: usize,
    size: usize,
    ns: usize,
    nd: usize,
    words: &mut [u32],
    floats: &mut [f32],
) -> usize
    requires { (at < 2 ^ 63) × (size ≤ 256) × Sized ns nd words.old floats.old }
    ensures { (left result words.new floats.new
        ≡ destination_step ns nd d.now size (left at words.old floats.old)) × (result ≡ at + size) }
{
    splitters::read_destination(d, at, ns, nd, words, floats);
    at + size
}

impl<'a> Reader<'a> {
    // A reader at the block's first byte.
    pub fn new(block: &'a [u8]) -> Reader<'a>
        ensures { (result.block ≡ block.entry) × (result.at ≡ 0) }
    {
        Reader { block, at: 0 }
    }

    // The reader at another place of its block.
    pub fn moved(self, at: usize) -> Reader<'a>
        ensures { (result.block ≡ self.entry.block) × (result.at ≡ at) }
    {
        Reader { at, ..self }
    }

    // The word at a distance from the reader's place; past the end it is 0.
    pub fn field(self, o: usize) -> u32
        ensures { result ≡ field_at 4 self.entry.block.now (self.entry.at + o) }
    {
        fields::u32_at(self.block, self.at.saturating_add(o))
    }

    // The splitter's record at the reader's place is read: the reader at the record behind it.
    pub fn next_splitter(self, ns: usize, nd: usize, words: &mut [u32]) -> Reader<'a>
        requires { (self.at < 2 ^ 63) × (nd ≤ 128) × (ns * 129 ≤ length words.old) }
        ensures { (result.block ≡ self.entry.block)
            × (lists result.at words.new ≡ splitter_step ns nd self.entry.block.now (lists self.entry.at words.old))
            × (result.at ≤ self.entry.at + 540) }
    {
        let at = splitters::read_splitter(self.block, self.at, ns, nd, words);
        Reader { at, ..self }
    }

    // At most `count` splitters from the reader's place on: the reader where they end.
    pub fn all_splitters(self, count: u32, ns: usize, nd: usize, words: &mut [u32]) -> Reader<'a>
        requires { (self.at < 2 ^ 63 + 540) × (nd ≤ 128) × (ns * 129 ≤ length words.old) }
        ensures { (result.block ≡ self.entry.block)
            × (lists result.at words.new ≡ splitters_from ns nd self.entry.block.now count self.entry.at words.old)
            × (result.at < 2 ^ 63 + 540) }
    {
        let mut q = self;
        for k in 0..count {
            if q.field(0) != SPLITTER_MAGIC {
                return q;
            }
            q = q.next_splitter(ns, nd, words);
        }
        q
    }

    // The size of the destinations' records from the reader's place on, of which `count` are announced.
    pub fn stride(self, count: u32) -> usize
        requires { self.at < 2 ^ 63 + 540 }
        ensures { (result ≡ stride_of self.entry.block.now self.entry.at count) × (result ≤ 256) }
    {
        splitters::find_stride(self.block, self.at, count)
    }

    // The destination's record at the reader's place is read: the reader at the record behind it, `size` bytes on.
    pub fn next_destination(
        self,
        size: usize,
        ns: usize,
        nd: usize,
        words: &mut [u32],
        floats: &mut [f32],
    ) -> Reader<'a>
        requires { (self.at < 2 ^ 63) × (size ≤ 256) × Sized ns nd words.old floats.old }
        ensures { (result.block ≡ self.entry.block)
            × (left result.at words.new floats.new
            ≡ destination_step ns nd self.entry.block.now size (left self.entry.at words.old floats.old))
            × (result.at ≡ self.entry.at + size) }
    {
        let at = destination_at(self.block, self.at, size, ns, nd, words, floats);
        Reader { at, ..self }
    }

    // At most `count` destinations from the reader's place on, each `size` bytes: the reader where they end.
    pub fn all_destinations(
        self,
        count: u32,
        size: usize,
        ns: usize,
        nd: usize,
        words: &mut [u32],
        floats: &mut [f32],
    ) -> Reader<'a>
        requires { (self.at < 2 ^ 63 + 540) × (size ≤ 256) × Sized ns nd words.old floats.old }
        ensures { (result.block ≡ self.entry.block)
            × (left result.at words.new floats.new
            ≡ destinations_from ns nd self.entry.block.now size count self.entry.at words.old floats.old)
            × (result.at < 2 ^ 63 + 540) }
    {
        let mut q = self;
        for k in 0..count {
            if q.field(0) != DESTINATION_MAGIC {
                return q;
            }
            q = q.next_destination(size, ns, nd, words, floats);
        }
        q
    }

    // Splitters from the reader's place on, and from where they end destinations: where the section ends.
    pub fn records(
        self,
        splitter_count: u32,
        destination_count: u32,
        ns: usize,
        nd: usize,
        words: &mut [u32],
        floats: &mut [f32],
    ) -> usize
        requires { (self.at < 2 ^ 63 + 540) × Sized ns nd words.old floats.old }
        ensures { (left result words.new floats.new
            ≡ records_from ns nd self.entry.block.now self.entry.at splitter_count destination_count
            words.old floats.old) × (result < 2 ^ 63 + 600) }
    {
        let q = self.all_splitters(splitter_count, ns, nd, words);
        let size = q.stride(destination_count);
        let e = q.all_destinations(destination_count, size, ns, nd, words, floats);
        e.at.next_multiple_of(0x10)
    }
}

// The section behind its header, by one reader. Its contract says nothing of a reader.
fn read_section(d: &[u8], ns: usize, nd: usize, words: &mut [u32], floats: &mut [f32]) -> usize
    requires { Sized ns nd words.old floats.old }
    ensures { (left result words.new floats.new
        ≡ records_of ns nd d.now words.old floats.old) × (result < 2 ^ 63 + 600) }
{
    let r = Reader::new(d);
    r.moved(0x20)
        .records(r.field(4), r.field(8), ns, nd, words, floats)
}

// The whole section: how many bytes it takes.
pub fn update_splitters(
    d: &[u8],
    ns: usize,
    nd: usize,
    words: &mut [u32],
    floats: &mut [f32],
) -> usize
    requires { Sized ns nd words.old floats.old }
    ensures { (left result words.new floats.new
        ≡ splitters_of ns nd d.now words.old floats.old) × (result < 2 ^ 63 + 600) }
{
    let headed = fields::u32_at(d, 0) == SPLITTER_HEADER_MAGIC;
    if ns == 0 || nd == 0 || !headed {
        return 0;
    }
    read_section(d, ns, nd, words, floats)
}
