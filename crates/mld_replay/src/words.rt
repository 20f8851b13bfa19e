//! The words of the program.
ghost use Rattle.std.specs.Prelude.{◌≡◌, ◌≢◌, ◌≤◌, ◌∷◌, [], ℕ, MatchOption, map};
ghost use Rattle.std.specs.Fmt.{decimal};
ghost use Rattle.std.specs.String.{string_bytes};
ghost use Rattle.mld_replay.specs.ReplayWords.{AreSaid, command_limit};

use schedule_text::read_number;

/// How many commands a generated schedule has at most.
const COMMAND_LIMIT: u64 = 10_000;

/// What words say.
#[derive(Clone, Copy)]
pub enum Words {
    /// `replay`: a schedule is to be replayed.
    Replay,
    /// `gen SEED N`: the schedule of a seed is to be run, which has so many commands.
    Generate(u64, u32),
    /// None of these.
    Unknown,
}

/// What the words say.
pub fn read_words(words: &Vec<String>) -> Words
    ensures { AreSaid (map (λ w. string_bytes w) words.now.items) result }
{
    match words.as_slice() {
        [word] => one_word(word.as_str()),
        [word, seed, count] => three_words(word.as_str(), seed.as_str(), count.as_str()),
        _ => Words::Unknown,
    }
}

/// What one word says.
fn one_word(word: &str) -> Words
    ensures { AreSaid (word.now ∷ []) result }
{
    if word == "replay" {
        Words::Replay
    } else {
        Words::Unknown
    }
}

/// What three words say.
fn three_words(word: &str, seed: &str, count: &str) -> Words
    ensures { AreSaid (word.now ∷ seed.now ∷ count.now ∷ []) result }
{
    if word != "gen" {
        return Words::Unknown;
    }
    let Some(seed) = read_number(seed.as_bytes()) else {
        return Words::Unknown;
    };
    let Some(count) = read_count(count.as_bytes()) else {
        return Words::Unknown;
    };
    Words::Generate(seed, count)
}

/// How many commands there are to be.
fn read_count(text: &[u8]) -> Option<u32>
    ensures { MatchOption result ((number : ℕ) → number ≤ command_limit → text.now ≢ decimal number)
        (λ number. (number ≤ command_limit) × (text.now ≡ decimal number)) }
{
    let number = read_number(text)?;
    if number > COMMAND_LIMIT {
        return None;
    }
    Some(number as u32)
}
