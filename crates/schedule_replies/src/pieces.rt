//! The pieces of replies, each added at the end of an output. They take no memory but for its room.
#![tactic(auto, using(std::proofs::lemmas::Grind::common_steps, rdf_terms::proofs::Appending::keeps_same, rdf_terms::proofs::Appending::keeps_more, rdf_terms::proofs::Appending::keeps_further))]

ghost use Rattle.std.specs.Prelude.{◌≡◌, ◌++◌, ◌∷◌, [], OnOk, OnErr, if◌then◌else◌};
ghost use Rattle.std.specs.Fmt.{decimal};
ghost use Rattle.rdf_terms.specs.Kept.{KeepsStart};
ghost use Rattle.tree_clock.specs.Path.{path_text, zero_letter, one_letter};
ghost use Rattle.tree_clock.specs.Dot.{dot_text};
ghost use Rattle.schedule_model.specs.Characters.{line_end};
ghost use Rattle.schedule_model.specs.ReplyText.{spaced_range};

use itoa::Buffer;
use std::alloc::AllocError;
use tree_clock::{Dot, Path, Range};

/// A word and a number.
pub fn push_numbered(out: &mut Vec<u8>, word: &[u8], number: u64) -> Result<(), AllocError>
    ensures ok { OnOk result (out.new.items ≡ out.old.items ++ (word.now ++ decimal number)) }
    ensures err { OnErr result (KeepsStart out.old.items out.new.items) }
{
    out.extend_from_slice(word)?;
    push_decimal(out, number)
}

/// A number.
fn push_decimal(out: &mut Vec<u8>, number: u64) -> Result<(), AllocError>
    ensures ok { OnOk result (out.new.items ≡ out.old.items ++ decimal number) }
    ensures err { OnErr result (out.new.items ≡ out.old.items) }
{
    let mut digits = Buffer::new();
    out.extend_from_slice(digits.format(number).as_bytes())
}

/// The end of a line: a word and a number.
pub fn push_count(out: &mut Vec<u8>, word: &[u8], number: u64) -> Result<(), AllocError>
    ensures ok { OnOk result (out.new.items ≡ out.old.items ++ (word.now ++ (decimal number ++ line_end ∷ []))) }
    ensures err { OnErr result (KeepsStart out.old.items out.new.items) }
{
    push_numbered(out, word, number)?;
    Ok(out.push(b'\n')?)
}

/// A path: `r` and its letters.
pub fn push_path(out: &mut Vec<u8>, path: &Path) -> Result<(), AllocError>
    ensures ok { OnOk result (out.new.items ≡ out.old.items ++ path_text path.now) }
    ensures err { OnErr result (KeepsStart out.old.items out.new.items) }
{
    out.push(b'r')?;
    for place in 0..path.len() {
        push_letter(out, path.letter(place))?;
    }
    Ok(())
}

/// A letter of a path.
fn push_letter(out: &mut Vec<u8>, one: bool) -> Result<(), AllocError>
    ensures ok { OnOk result (out.new.items ≡ out.old.items ++ (if one then one_letter else zero_letter) ∷ []) }
    ensures err { OnErr result (out.new.items ≡ out.old.items) }
{
    Ok(out.push(if one { b'1' } else { b'0' })?)
}

/// A dot: its path and its tick.
pub fn push_dot(out: &mut Vec<u8>, dot: &Dot) -> Result<(), AllocError>
    ensures ok { OnOk result (out.new.items ≡ out.old.items ++ dot_text dot.now) }
    ensures err { OnErr result (KeepsStart out.old.items out.new.items) }
{
    push_path(out, &dot.path)?;
    out.push(b'.')?;
    push_decimal(out, u64::from(dot.tick))
}

/// A range, behind a space: its path and its ticks.
pub fn push_range(out: &mut Vec<u8>, range: &Range) -> Result<(), AllocError>
    ensures ok { OnOk result (out.new.items ≡ out.old.items ++ spaced_range range.now) }
    ensures err { OnErr result (KeepsStart out.old.items out.new.items) }
{
    out.push(b' ')?;
    push_path(out, &range.path)?;
    push_numbered(out, b".", u64::from(range.first))?;
    push_numbered(out, b"-", u64::from(range.last))
}
