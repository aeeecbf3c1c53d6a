// What the calls answer: what they give, and why they refuse. Each refusal has its number of docs/QUESTIONS.md.
ghost use Rattle.std.specs.Prelude.{◌≡◌};
ghost use Rattle.renderer.specs.Answers.{lengths_refusal, open_refusal, open_refusal_of, update_refusal};
ghost use Rattle.renderer.specs.Answers.{render_refusal, section_refusal, order_refusal};

// How long the five slices of a renderer's state must be.
#[derive(Clone, Copy, Debug, PartialEq, Eq)]
pub struct Lengths {
    pub words: usize,
    pub longs: usize,
    pub floats: usize,
    pub contexts: usize,
    pub history: usize,
}

// Why `lengths` and `reply_length` refuse.
#[derive(Clone, Copy, Debug, PartialEq, Eq)]
pub enum LengthsError {
    // Samples per render.
    Samples,
    // Another count.
    Counts,
}

impl LengthsError {
    pub fn number(self) -> u32
        ensures { result ≡ lengths_refusal «self» }
    {
        match self {
            LengthsError::Samples => 1,
            LengthsError::Counts => 2,
        }
    }
}

// Why `open` refuses.
#[derive(Clone, Copy, Debug, PartialEq, Eq)]
pub enum OpenError {
    // Samples per render.
    Samples,
    // Another count.
    Counts,
    // The lengths of the state's slices.
    Lengths,
}

impl OpenError {
    pub fn number(self) -> u32
        ensures { result ≡ open_refusal «self» }
    {
        match self {
            OpenError::Samples => 1,
            OpenError::Counts => 2,
            OpenError::Lengths => 3,
        }
    }
}

impl From<LengthsError> for OpenError {
    ghost from_gives = { λ e o. o ≡ open_refusal_of e };

    fn from(e: LengthsError) -> OpenError {
        match e {
            LengthsError::Samples => OpenError::Samples,
            LengthsError::Counts => OpenError::Counts,
        }
    }
}

// Why `update` refuses.
#[derive(Clone, Copy, Debug, PartialEq, Eq)]
pub enum UpdateError {
    // The state.
    NotWhole,
    // The reply slice.
    ShortReply,
}

impl UpdateError {
    pub fn number(self) -> u32
        ensures { result ≡ update_refusal «self» }
    {
        match self {
            UpdateError::NotWhole => 4,
            UpdateError::ShortReply => 6,
        }
    }
}

// Why `render` refuses.
#[derive(Clone, Copy, Debug, PartialEq, Eq)]
pub enum RenderError {
    // The state.
    NotWhole,
    // The ranges of sample memory.
    Ranges,
    // Where a range ends.
    FarMemory,
    // The frame slice.
    ShortFrames,
}

impl RenderError {
    pub fn number(self) -> u32
        ensures { result ≡ render_refusal «self» }
    {
        match self {
            RenderError::NotWhole => 4,
            RenderError::Ranges => 13,
            RenderError::FarMemory => 5,
            RenderError::ShortFrames => 7,
        }
    }
}

// Why `render_section` refuses.
#[derive(Clone, Copy, Debug, PartialEq, Eq)]
pub enum SectionError {
    // The state.
    NotWhole,
    // The ranges of sample memory.
    Ranges,
    // Where a range ends.
    FarMemory,
    // The count of renders.
    Count,
    // The frame slice.
    ShortFrames,
}

impl SectionError {
    pub fn number(self) -> u32
        ensures { result ≡ section_refusal «self» }
    {
        match self {
            SectionError::NotWhole => 4,
            SectionError::Ranges => 13,
            SectionError::FarMemory => 5,
            SectionError::Count => 14,
            SectionError::ShortFrames => 7,
        }
    }
}

// Why `mix_order` refuses.
#[derive(Clone, Copy, Debug, PartialEq, Eq)]
pub enum OrderError {
    // The state.
    NotWhole,
}

impl OrderError {
    pub fn number(self) -> u32
        ensures { result ≡ order_refusal «self» }
    {
        match self {
            OrderError::NotWhole => 4,
        }
    }
}
