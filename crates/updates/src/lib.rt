// An update of the whole state, and its reply (mod.rs `Renderer::update`).
#![tactic(auto)]

mod routes;

ghost use Rattle.std.specs.Prelude.{◌≡◌, ◌+◌, ◌*◌, ◌≤◌, length, get_or};
ghost use Rattle.state.specs.State.{Sized, state_of, words_of, longs_of, voice_words_in, voice_longs_in};
ghost use Rattle.updates.specs.Update.{Updatable, VoicesInside, put_voices, voice_rows_in, after_voices};
ghost use Rattle.updates.specs.Update.{changed, updated, update_reply};
ghost use Rattle.rows.specs.Rows.{put};
ghost use Rattle.params.specs.Sizes.{Allowed, reply_length};
ghost use Rattle.reply.specs.Reply.{reply_of};
ghost use Rattle.slices.specs.Slices.{held, Kept};

use params::{Params, Sections};
use slices::Slices;

// `update_voices` on the rows of n voices, which begin at 10 words, 1 long and 0 floats, and are all of the contexts and the history.
fn update_voices(
    d: &[u8],
    revision: u32,
    n: usize,
    words: &mut [u32],
    longs: &mut [u64],
    floats: &mut [f32],
    contexts: &mut [u16],
    history: &mut [f32],
)
    requires { VoicesInside n (state_of words.old longs.old floats.old contexts.old history.old) }
    ensures { state_of words.new longs.new floats.new contexts.new history.new
        ≡ put_voices (voice_rows_in revision d.now n (state_of words.old longs.old floats.old contexts.old history.old))
        (state_of words.old longs.old floats.old contexts.old history.old) }
{
    let w = 10 + n * 58;
    let l = 1 + n * 14;
    let f = n * 4;
    voices::update_voices(
        d,
        revision,
        n,
        &mut words[10..w],
        &mut longs[1..l],
        &mut floats[0..f],
        contexts,
        history,
    );
}

// Channel resources and voices.
fn update_first(p: Params, sections: Sections, input: &[u8], s: &mut Slices<'_>)
    requires { Updatable p (held s.old) }
    ensures after { held s.new ≡ after_voices p sections input.now (held s.old) }
    ensures sized { Sized p (held s.new) }
    ensures kept { Kept s.old s.new }
{
    let n = p.voices as usize;
    let resources = fields::section(input, sections.resources_at, sections.resources_size);
    desk_updates::resources(resources, n, s.floats, n * 4);
    let d = fields::section(input, sections.voices_at, sections.voices_size);
    update_voices(
        d,
        p.revision_number(),
        n,
        s.words,
        s.longs,
        s.floats,
        s.contexts,
        s.history,
    );
}

// The five updates, in the Rust's order, by an input with at least one byte.
fn change_state(p: Params, input: &[u8], s: &mut Slices<'_>)
    requires { Updatable p (held s.old) }
    ensures after { held s.new ≡ changed p input.now (held s.old) }
    ensures sized { Sized p (held s.new) }
    ensures kept { Kept s.old s.new }
{
    let sections = Sections::read(input);
    update_first(p, sections, input, s);
    routes::update_desk(p, sections, input, s.words, s.floats);
}

// The state after an update: an input without a byte leaves it as it is.
fn update_state(p: Params, input: &[u8], s: &mut Slices<'_>)
    requires { Updatable p (held s.old) }
    ensures after { held s.new ≡ updated p input.now (held s.old) }
    ensures sized { Sized p (held s.new) }
    ensures kept { Kept s.old s.new }
{
    if !input.is_empty() {
        change_state(p, input, s);
    }
}

// The reply, of the voices' rows.
fn write_reply(p: Params, expected: u32, input: &[u8], s: &Slices<'_>, reply: &mut [u8])
    requires allowed { Allowed p }
    requires words_len { length s.now.words.now ≡ words_of p }
    requires longs_len { length s.now.longs.now ≡ longs_of p }
    requires reply_room { reply_length p expected ≤ length reply.old }
    ensures { reply.new ≡ put reply.old 0 (reply_of p expected input.now (get_or s.now.longs.now 0 0)
        (voice_words_in p s.now.words.now) (voice_longs_in p s.now.longs.now)) }
{
    let n = p.voices as usize;
    let w = 10 + n * 58;
    let l = 1 + n * 14;
    reply::write_reply(
        p,
        expected,
        input,
        s.longs[0],
        &s.words[10..w],
        &s.longs[1..l],
        reply,
    );
}

// An update: the state, and the reply into the front of a slice that has room for it.
pub fn update(p: Params, expected: u32, input: &[u8], s: &mut Slices<'_>, reply: &mut [u8])
    requires updatable { Updatable p (held s.old) }
    requires reply_room { reply_length p expected ≤ length reply.old }
    ensures state_after { held s.new ≡ updated p input.now (held s.old) }
    ensures reply_after { reply.new ≡ put reply.old 0 (update_reply p expected input.now (held s.new)) }
    ensures kept { Kept s.old s.new }
{
    update_state(p, input, s);
    write_reply(p, expected, input, s, reply);
}
