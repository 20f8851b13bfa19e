//! Dots and clocks as texts write them.
ghost use Rattle.std.specs.Prelude.{◌≡◌, ◌≢◌, ◌≤◌, ◌<◌, ◌++◌, ◌∷◌, ◌↔◌, ℕ, IsTrue, IfOk, OnOk, MatchOption, EachIndex, slice_index, length, option_map, if◌then◌else◌};
ghost use Rattle.std.specs.Fmt.{decimal};
ghost use Rattle.tree_clock.specs.Clock.{IsClock, RaisesTo};
ghost use Rattle.tree_clock.specs.Letters.{IsLetter};
ghost use Rattle.tree_clock.specs.Path.{zero_letter, one_letter};
ghost use Rattle.schedule_text.specs.schedule_model.Lacking.{Lacks};
ghost use Rattle.schedule_text.specs.ReadLines.{Finds};
ghost use Rattle.dot_texts.specs.DotForms.{ArePathLetters, MayBeTick, IsDotText, IsClockText, IsFirstPart, IsAboveLast, comma};

use schedule_text::{behind, read_number};
use std::alloc::{AllocError, Global};
use tree_clock::{Clock, Dot, PATH_LIMIT, Path, TICK_LIMIT};

/// The dot that a text writes, as `r01.3`.
pub fn read_dot(text: &[u8]) -> Option<Dot>
    ensures { Finds (IsDotText text.now) result }
{
    let rest = behind(text, b"r")?;
    let parts = split_at(rest, b'.')?;
    let path = read_path(parts.0)?;
    let tick = read_tick(parts.1)?;
    Some(Dot { path, tick })
}

/// The clock that a text writes: the last dots of its paths, in the order of these, with a comma between each two, or `-` for none.
pub fn read_clock(alloc: Global, text: &[u8]) -> Result<Option<Clock>, AllocError>
    ensures { IfOk result (Finds (IsClockText text.now)) }
{
    let mut clock = Clock::empty(alloc);
    if text == b"-".as_slice() {
        return Ok(Some(clock));
    }
    let mut last = None;
    let mut left = Some(text);
    while let Some(text) = left {
        let (part, rest) = first_part(text);
        let Some(dot) = read_dot(part) else {
            return Ok(None);
        };
        if !is_above_last(last, &dot.path) {
            return Ok(None);
        }
        raise(&mut clock, &dot)?;
        last = Some(dot.path);
        left = rest;
    }
    Ok(Some(clock))
}

/// Makes a dot the last one of its path in a clock.
fn raise(clock: &mut Clock, dot: &Dot) -> Result<(), AllocError>
    ensures raised { OnOk result (RaisesTo clock.old.ticks clock.new.ticks dot.now) }
    ensures clock { OnOk result (IsClock clock.new.ticks) }
{
    clock.reserve(&dot.path)?;
    clock.raise(dot);
    Ok(())
}

/// Whether a path is above the last one, if there is one.
fn is_above_last(last: Option<Path>, path: &Path) -> bool
    ensures { IsTrue result ↔ IsAboveLast last path.now }
{
    match last {
        Some(last) => last.cmp(path).is_lt(),
        None => true,
    }
}

/// The path of these letters.
fn read_path(letters: &[u8]) -> Option<Path>
    ensures { MatchOption result (¬ ArePathLetters letters.now)
        (λ path. ArePathLetters letters.now × (path ≡ letters.now)) }
{
    if letters.len() > usize::from(PATH_LIMIT) {
        return None;
    }
    let mut path = Path::root();
    for byte in letters {
        let Some(one) = letter(*byte) else {
            return None;
        };
        path = path.child(one);
    }
    Some(path)
}

/// Whether a letter is `1`, or else `0`.
fn letter(byte: u8) -> Option<bool>
    ensures { MatchOption result (¬ IsLetter byte) (λ one. byte ≡ (if one then one_letter else zero_letter)) }
{
    match byte {
        b'0' => Some(false),
        b'1' => Some(true),
        _ => None,
    }
}

/// The tick that a text writes, with no sign and no leading zero.
fn read_tick(text: &[u8]) -> Option<u32>
    ensures { MatchOption result ((tick : ℕ) → MayBeTick tick → text.now ≢ decimal tick)
        (λ tick. MayBeTick tick × (text.now ≡ decimal tick)) }
{
    let number = read_number(text)?;
    let most = u64::from(TICK_LIMIT);
    if number < 1 || number > most {
        return None;
    }
    Some(number as u32)
}

/// The bytes before the first comma, and those behind it, where there is one.
fn first_part(text: &[u8]) -> (&[u8], Option<&[u8]>)
    ensures { IsFirstPart comma text.now result.0.now (option_map (λ rest. rest.now) result.1) }
{
    match split_at(text, b',') {
        Some((part, rest)) => (part, Some(rest)),
        None => (text, None),
    }
}

/// The bytes before the first such byte, and those behind it.
fn split_at(text: &[u8], mark: u8) -> Option<(&[u8], &[u8])>
    ensures { MatchOption result (Lacks mark text.now)
        (λ parts. (text.now ≡ parts.0.now ++ mark ∷ parts.1.now) × Lacks mark parts.0.now) }
{
    let place = first_place(text, mark)?;
    Some((&text[..place], &text[place + 1..]))
}

/// Where the first such byte is.
fn first_place(text: &[u8], mark: u8) -> Option<usize>
    ensures { MatchOption result (EachIndex text.now (λ k. slice_index text.now k ≢ mark))
        (λ place. (place < length text.now) × (slice_index text.now place ≡ mark)
        × ((k : ℕ) → k < place → slice_index text.now k ≢ mark)) }
{
    text.iter().position(|byte| *byte == mark)
}
