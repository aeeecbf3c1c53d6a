// Whether a voice plays.
ghost use Rattle.std.specs.Prelude.{◌≡◌};
ghost use Rattle.voice.specs.Play.{set_play};

#[derive(Clone, Copy, Debug, Default, PartialEq, Eq)]
pub enum Play {
    Started,
    #[default]
    Stopped,
    Stopping,
    Paused,
}

// What an update's request makes of the play mark: 0 starts, 1 stops what is not stopped, any other pauses.
pub fn set_play(play: Play, requested: u8) -> Play
    ensures { result ≡ set_play play requested }
{
    match requested {
        0 => Play::Started,
        1 => match play {
            Play::Stopped => Play::Stopped,
            _ => Play::Stopping,
        },
        _ => Play::Paused,
    }
}
