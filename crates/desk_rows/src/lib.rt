// The desk that a render goes by: the rows of its mixes, and those of its splitters and destinations.
#![tactic(auto)]

ghost use Rattle.std.specs.Prelude.{◌≡◌, ◌+◌, ◌*◌, ◌≤◌, ◌<◌};
ghost use Rattle.desk_rows.specs.DeskRows.{Mixes, Lists, mix_used, mix_buffers, mix_destination, mix_splitter, mix_offset, list_length, list_entry, configured_of, destination_mix};

// The rows of n mixes.
#[derive(Clone, Copy)]
pub struct MixRows<'a> {
    pub words: &'a [u32],
    pub n: usize,
    ghost whole: { Mixes n words.now },
}

// The rows of ns splitters, and behind them those of nd destinations.
#[derive(Clone, Copy)]
pub struct ListRows<'a> {
    pub words: &'a [u32],
    pub ns: usize,
    pub nd: usize,
    ghost whole: { Lists ns nd words.now },
}

#[derive(Clone, Copy)]
pub struct Desk<'a> {
    pub mixes: MixRows<'a>,
    pub lists: ListRows<'a>,
}

impl<'a> MixRows<'a> {
    // Whether mix m is in use.
    pub fn used(&self, m: usize) -> bool
        requires { m < self.now.n }
        ensures { result ≡ mix_used self.now.words.now m }
    {
        self.words[m * 5] != 0
    }

    // How many buffers mix m has.
    pub fn buffer_count(&self, m: usize) -> usize
        requires { m < self.now.n }
        ensures { (result ≡ mix_buffers self.now.words.now m) × (result ≤ 24) }
    {
        self.words[m * 5 + 1] as usize
    }

    // The mix that mix m goes to; 0x7fffffff where it goes by its splitter.
    pub fn destination(&self, m: usize) -> u32
        requires { m < self.now.n }
        ensures { result ≡ mix_destination self.now.words.now m }
    {
        self.words[m * 5 + 2]
    }

    // The number of mix m's splitter, which may be no splitter's.
    pub fn splitter(&self, m: usize) -> usize
        requires { m < self.now.n }
        ensures { result ≡ mix_splitter self.now.words.now m }
    {
        self.words[m * 5 + 3] as usize
    }

    // Where mix m's buffers begin.
    pub fn offset(&self, m: usize) -> usize
        requires { m < self.now.n }
        ensures { (result ≡ mix_offset self.now.words.now m) × (result ≤ 768) }
    {
        self.words[m * 5 + 4] as usize
    }
}

impl<'a> ListRows<'a> {
    // How many destinations splitter s names.
    pub fn list_length(&self, s: usize) -> usize
        requires { s < self.now.ns }
        ensures { (result ≡ list_length self.now.words.now s) × (result ≤ self.now.nd) }
    {
        self.words[s * 129] as usize
    }

    // The number of the k-th of them, which may be no destination's.
    pub fn list_entry(&self, s: usize, k: usize) -> usize
        requires { (s < self.now.ns) × (k < self.now.nd) }
        ensures { result ≡ list_entry self.now.words.now s k }
    {
        self.words[s * 129 + 1 + k] as usize
    }

    // The mix that destination d goes to, as its row has it.
    pub fn destination_mix(&self, d: usize) -> u32
        requires { d < self.now.nd }
        ensures { result ≡ destination_mix self.now.ns self.now.words.now d }
    {
        self.words[self.ns * 129 + d * 2 + 1]
    }

    // The Rust's `Destination::configured`, of a number that may be no destination's.
    pub fn configured(&self, d: usize) -> bool
        ensures { result ≡ configured_of self.now.ns self.now.nd self.now.words.now d }
    {
        if d >= self.nd {
            return false;
        }
        if self.words[self.ns * 129 + d * 2] == 0 {
            return false;
        }
        self.destination_mix(d) < 0x7fff_ffff
    }
}
