// The state that an open makes (mixer.rs `State::new`): every row as its type's default.
#![tactic(auto)]

ghost use Rattle.std.specs.Prelude.{◌≡◌};
ghost use Rattle.params.specs.Sizes.{Allowed};
ghost use Rattle.state.specs.State.{Sized};
ghost use Rattle.slices.specs.Slices.{held, Kept};
ghost use Rattle.opened.specs.Opened.{opened};

mod gains;
mod repeated;
mod words;

use params::Params;
use slices::Slices;

// Makes the state of a renderer with these parameters, whatever the slices held.
pub fn open_state(p: Params, s: &mut Slices<'_>)
    requires allowed { Allowed p }
    requires sized { Sized p (held s.old) }
    ensures made { held s.new ≡ opened p }
    ensures kept { Kept s.old s.new }
{
    let longs = s.longs.len();
    let contexts = s.contexts.len();
    let history = s.history.len();
    words::open_words(p, s.words);
    rows::fill(s.longs, 0, longs, 0);
    gains::open_floats(p, s.floats);
    rows::fill(s.contexts, 0, contexts, 0);
    rows::fill(s.history, 0, history, 0.0);
}
