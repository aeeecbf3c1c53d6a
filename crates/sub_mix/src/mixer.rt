// The desk with the floats of its mixes and destinations.
ghost use Rattle.std.specs.Prelude.{◌≡◌, ◌*◌, ◌<◌, length};
ghost use Rattle.sub_mix.specs.SubMix.{mix_volume, buffer_volumes, destination_volumes};

use desk_rows::Desk;

// A mix has 577 floats (its volume, then 24 volumes for each of 24 buffers), a destination 48 (its volumes, those before).
#[derive(Clone, Copy)]
pub struct Mixer<'a> {
    pub desk: Desk<'a>,
    pub volumes: &'a [f32],
    pub destinations: &'a [f32],
    ghost volumes_long: { length volumes.now ≡ desk.mixes.n * 577 },
    ghost destinations_long: { length destinations.now ≡ desk.lists.nd * 48 },
}

impl<'a> Mixer<'a> {
    // Mix m's volume.
    pub fn volume(&self, m: usize) -> f32
        requires { m < self.now.desk.mixes.n }
        ensures { result ≡ mix_volume self.now.volumes.now m }
    {
        self.volumes[m * 577]
    }

    // The 24 volumes of mix m's buffer i.
    pub fn buffer_volumes(&self, m: usize, i: usize) -> &[f32]
        requires { (m < self.now.desk.mixes.n) × (i < 24) }
        ensures { (result.now ≡ buffer_volumes self.now.volumes.now m i) × (length result.now ≡ 24) }
    {
        let at = m * 577 + 1 + i * 24;
        &self.volumes[at..at + 24]
    }

    // The 24 volumes of destination d.
    pub fn destination_volumes(&self, d: usize) -> &[f32]
        requires { d < self.now.desk.lists.nd }
        ensures { (result.now ≡ destination_volumes self.now.destinations.now d) × (length result.now ≡ 24) }
    {
        let at = d * 48;
        &self.destinations[at..at + 24]
    }
}
