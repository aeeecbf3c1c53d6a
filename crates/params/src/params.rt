// `Params`: what a renderer is opened with, and the sizes that follow from it.
ghost use Rattle.std.specs.Prelude.{◌≡◌, ◌≤◌, length};
ghost use Rattle.params.specs.Params.{parse_of, params_of};
ghost use Rattle.params.specs.Sizes.{Allowed, revision_of, pools_of, info_bytes, fixed_of, effects_bytes, reply_length};

const WAVE_BUFFERS_PER_VOICE: u32 = 4;

#[derive(Clone, Copy)]
pub struct Params {
    pub sample_rate: u32,
    pub sample_count: u32,
    pub mix_buffers: u32,
    pub sub_mixes: u32,
    pub voices: u32,
    pub sinks: u32,
    pub effects: u32,
    pub splitters: u32,
    pub splitter_destinations: u32,
    pub revision: u32,
}

impl Params {
    // The parameters as a title sends them; a field past the end is 0.
    pub fn parse(d: &[u8]) -> Params
        ensures { result ≡ parse_of d.now }
    {
        Params {
            sample_rate: fields::u32_at(d, 0x00),
            sample_count: fields::u32_at(d, 0x04),
            mix_buffers: fields::u32_at(d, 0x08),
            sub_mixes: fields::u32_at(d, 0x0c),
            voices: fields::u32_at(d, 0x10),
            sinks: fields::u32_at(d, 0x14),
            effects: fields::u32_at(d, 0x18),
            splitters: fields::u32_at(d, 0x24),
            splitter_destinations: fields::u32_at(d, 0x28),
            revision: fields::u32_at(d, 0x30),
        }
    }

    // The parameters in their row, the first ten words.
    pub fn load(words: &[u32]) -> Params
        requires { 10 ≤ length words.now }
        ensures { result ≡ params_of words.now }
    {
        Params {
            sample_rate: words[0],
            sample_count: words[1],
            mix_buffers: words[2],
            sub_mixes: words[3],
            voices: words[4],
            sinks: words[5],
            effects: words[6],
            splitters: words[7],
            splitter_destinations: words[8],
            revision: words[9],
        }
    }

    // The revision: the word's top byte less '0', going round at 2^32.
    pub fn revision_number(self) -> u32
        ensures { result ≡ revision_of self }
    {
        std::num::wrapping_sub_u32(self.revision >> 24, 48)
    }

    pub fn memory_pools(self) -> u32
        requires { Allowed self }
        ensures { result ≡ pools_of self }
    {
        self.effects + self.voices * WAVE_BUFFERS_PER_VOICE
    }

    // The bytes of the reply's render info: from revision 5.
    pub fn render_info_size(self) -> usize
        ensures { result ≡ info_bytes self }
    {
        if self.revision_number() >= 5 {
            crate::RENDER_INFO_OUT
        } else {
            0
        }
    }

    // The bytes of a reply without its effects.
    pub fn fixed_output_size(self) -> usize
        requires { Allowed self }
        ensures { result ≡ fixed_of self }
    {
        crate::HEADER_SIZE
            + self.memory_pools() as usize * crate::MEMORY_POOL_OUT
            + self.voices as usize * crate::VOICE_OUT
            + self.sinks as usize * crate::SINK_OUT
            + crate::PERFORMANCE_OUT
            + crate::BEHAVIOR_OUT
            + self.render_info_size()
    }

    // The bytes of a reply's effects: as many for each as the expected size leaves room for.
    pub fn effects_bytes(self, expected: u32) -> usize
        requires { Allowed self }
        ensures { result ≡ effects_bytes self expected }
    {
        if self.effects == 0 {
            return 0;
        }
        let effects = self.effects as usize;
        let room = (expected as usize).saturating_sub(self.fixed_output_size());
        room / effects * effects
    }

    pub fn reply_length(self, expected: u32) -> usize
        requires { Allowed self }
        ensures { result ≡ reply_length self expected }
    {
        self.fixed_output_size() + self.effects_bytes(expected)
    }
}
