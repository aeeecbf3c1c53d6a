// Whether a voice's words alone say that a turn leaves its rows as they are.
ghost use Rattle.std.specs.Prelude.{◌≡◌, true, ◌⊎◌, ◌+◌, ◌≤◌, length};
ghost use Rattle.voice_rows.specs.IdleRow.{StoredWave, StoredFlags, StoredWaves, StoredRow, IdleRow};

// Places in a voice's words, as voice_row has them: of the valid flags and of the wave buffers, the first.
const IN_USE: usize = 0;

const FRESH: usize = 1;

const PLAY: usize = 2;

const QUEUED: usize = 6;

const FLUSH: usize = 8;

const VALID: usize = 18;

const WAVES: usize = 26;

// Places in a wave buffer's words, as wave_row has them, and how many words there are.
const LOOPING: usize = 2;

const END_OF_STREAM: usize = 3;

const PENDING: usize = 7;

const WAVE_WORDS: usize = 8;

// The play marks of a voice that waits. PAUSED is the last of the four.
const STOPPED: u32 = 1;

const PAUSED: u32 = 3;

// Whether the flags of the wave buffer at a place are as a voice stores them.
fn wave_stored(words: &[u32], at: usize) -> bool
    requires { at + 8 ≤ length words.now }
    ensures { result ≡ true → StoredWave words.now at }
{
    words[at + LOOPING] <= 1 && words[at + END_OF_STREAM] <= 1 && words[at + PENDING] <= 1
}

// The same of the four wave buffers from a place on.
fn waves_stored(words: &[u32], at: usize) -> bool
    requires { at + 32 ≤ length words.now }
    ensures { result ≡ true → StoredWaves words.now at }
{
    (0..4).all(|b| wave_stored(words, at + b * WAVE_WORDS))
}

// The same of four flags from a place on.
fn flags_stored(words: &[u32], at: usize) -> bool
    requires { at + 4 ≤ length words.now }
    ensures { result ≡ true → StoredFlags words.now at }
{
    (0..4).all(|k| words[at + k] <= 1)
}

// Whether the first 58 words are as a voice stores them.
fn row_stored(words: &[u32]) -> bool
    requires { 58 ≤ length words.now }
    ensures { result ≡ true → StoredRow words.now }
{
    words[IN_USE] <= 1
        && words[FRESH] <= 1
        && words[PLAY] <= PAUSED
        && flags_stored(words, VALID)
        && waves_stored(words, WAVES)
}

// Whether a voice with this play mark waits.
fn waits(play: u32) -> bool
    ensures { result ≡ true → (play ≡ 1) ⊎ (play ≡ 3) }
{
    play == STOPPED || play == PAUSED
}

// Whether the voice in the first 58 words has nothing to do: it is not in use, has nothing queued, or waits with nothing new and nothing to
// flush. Words that loading and storing would change are not left.
pub fn idle(words: &[u32]) -> bool
    requires { 58 ≤ length words.now }
    ensures { result ≡ true → IdleRow words.now }
{
    words[IN_USE] == 0
        || words[QUEUED] == 0
        || (words[FRESH] == 0 && words[FLUSH] == 0 && waits(words[PLAY]) && row_stored(words))
}
