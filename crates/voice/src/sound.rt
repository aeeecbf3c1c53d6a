// The sound side of the Rust's `Voice`: its ADPCM context and history, which a voice's position does not depend on.
ghost use Rattle.std.specs.Prelude.{◌≡◌};
ghost use Rattle.voice.specs.Sound.{silent_sound, sound_after};

use adpcm::AdpcmContext;

// The last three samples of each of six channels.
#[derive(Clone, Copy)]
pub struct History {
    pub samples: [f32; 18],
}

#[derive(Clone, Copy)]
pub struct Sound {
    pub adpcm: AdpcmContext,
    pub history: History,
}

// The sound of a voice that has played nothing.
pub fn silent() -> Sound
    ensures { result ≡ silent_sound }
{
    Sound {
        adpcm: AdpcmContext::default(),
        history: History { samples: [0.0; 18] },
    }
}

// What a voice keeps of its sound: nothing where it is renewed, that is new or stopped.
pub fn sound_after(s: Sound, renewed: bool) -> Sound
    ensures { result ≡ sound_after renewed s }
{
    if renewed { silent() } else { s }
}
