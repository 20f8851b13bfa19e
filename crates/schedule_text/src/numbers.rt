//! Numbers as a line writes them.
ghost use Rattle.std.specs.Prelude.{◌≡◌, ◌≢◌, ◌<◌, ◌≤◌, ◌^◌, ◌↔◌, ℕ, IsTrue, MatchOption, slice_index, length};
ghost use Rattle.std.specs.Fmt.{decimal};
ghost use Rattle.mld_model.specs.World.{clone_count};
ghost use Rattle.schedule_text.specs.ReadLines.{FindsBelow};

use mld_model::CLONE_COUNT;

/// A number below 2^64 as `decimal` writes it: no sign, no leading zero.
pub fn read_number(text: &[u8]) -> Option<u64>
    ensures { FindsBelow (2 ^ 64) text.now result }
{
    if text.is_empty() {
        return None;
    }
    if text[0] == b'+' {
        return None;
    }
    if has_needless_zero(text) {
        return None;
    }
    let Ok(text) = str::from_utf8(text) else {
        return None;
    };
    match text.parse::<u64>() {
        Ok(number) => Some(number),
        Err(_) => None,
    }
}

/// A zero stands first, and more behind it.
fn has_needless_zero(text: &[u8]) -> bool
    requires { 0 < length text.now }
    ensures { IsTrue result ↔ ((slice_index text.now 0 ≡ 48) × (1 < length text.now)) }
{
    text[0] == b'0' && text.len() > 1
}

/// The number of a clone, below `CLONE_COUNT`.
pub fn read_clone(text: &[u8]) -> Option<u8>
    ensures { FindsBelow clone_count text.now result }
{
    let number = read_number(text)?;
    if number >= u64::from(CLONE_COUNT) {
        return None;
    }
    Some(number as u8)
}

/// How many clones there are, 1 to `CLONE_COUNT`.
pub fn read_count(text: &[u8]) -> Option<u8>
    ensures { MatchOption result ((number : ℕ) → 1 ≤ number → number ≤ clone_count → text.now ≢ decimal number)
        (λ number. (1 ≤ number) × (number ≤ clone_count) × (text.now ≡ decimal number)) }
{
    let number = read_number(text)?;
    let most = u64::from(CLONE_COUNT);
    if number < 1 || number > most {
        return None;
    }
    Some(number as u8)
}

/// The number of a call at which a device crashes, the first of which is 0.
pub fn read_call(text: &[u8]) -> Option<u32>
    ensures { FindsBelow (2 ^ 32) text.now result }
{
    let number = read_number(text)?;
    if number > u64::from(u32::MAX) {
        return None;
    }
    Some(number as u32)
}
