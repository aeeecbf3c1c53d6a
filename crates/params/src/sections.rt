// The sections of an update's input: how long each is by the header, and where it begins.
ghost use Rattle.std.specs.Prelude.{◌≡◌};
ghost use Rattle.params.specs.Sections.{sections_of, Near};

#[derive(Clone, Copy)]
pub struct Sections {
    pub behavior_size: usize,
    pub pools_size: usize,
    pub resources_at: usize,
    pub resources_size: usize,
    pub voices_at: usize,
    pub voices_size: usize,
    pub effects_at: usize,
    pub effects_size: usize,
    pub splitters_at: usize,
    pub mixes_size: usize,
    pub sinks_size: usize,
}

impl Sections {
    pub fn read(input: &[u8]) -> Sections
        ensures value { result ≡ sections_of input.now }
        ensures near { Near result }
    {
        let behavior_size = fields::u32_at(input, 0x04) as usize;
        let pools_size = fields::u32_at(input, 0x08) as usize;
        let voices_size = fields::u32_at(input, 0x0c) as usize;
        let resources_size = fields::u32_at(input, 0x10) as usize;
        let effects_size = fields::u32_at(input, 0x14) as usize;
        let resources_at = crate::HEADER_SIZE + behavior_size + pools_size;
        let voices_at = resources_at + resources_size;
        let effects_at = voices_at + voices_size;
        Sections {
            behavior_size,
            pools_size,
            resources_at,
            resources_size,
            voices_at,
            voices_size,
            effects_at,
            effects_size,
            splitters_at: effects_at + effects_size,
            mixes_size: fields::u32_at(input, 0x18) as usize,
            sinks_size: fields::u32_at(input, 0x1c) as usize,
        }
    }
}
