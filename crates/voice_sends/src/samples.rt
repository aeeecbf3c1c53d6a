// A voice's rows of samples.
ghost use Rattle.std.specs.Prelude.{◌≡◌, ◌*◌, ◌<◌, length};
ghost use Rattle.rows.specs.Rows.{part};
ghost use Rattle.voice_sends.specs.Sending.{Rowed};

// A row of n samples for each of the channels, one behind the other.
#[derive(Clone, Copy)]
pub struct Rows<'a> {
    pub samples: &'a [f32],
    pub n: usize,
    pub channels: usize,
    pub ghost rowed: { Rowed n channels samples.now },
}

impl<'a> Rows<'a> {
    // Row c.
    pub fn row(&self, c: usize) -> &'a [f32]
        requires { c < self.now.channels }
        ensures row { result.now ≡ part self.now.n (c * self.now.n) self.now.samples.now }
        ensures long { length result.now ≡ self.now.n }
    {
        let at = c * self.n;
        &self.samples[at..at + self.n]
    }
}
