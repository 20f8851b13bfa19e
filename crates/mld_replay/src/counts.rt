//! What is told of a generated schedule: how many lines it has, and counts of the clones that its domain line founds.
ghost use Rattle.std.specs.Prelude.{◌≡◌, ◌++◌, IfOk, OnOk};
ghost use Rattle.mld_replay.specs.Counts.{count_of_dots, clone_line, clone_lines, counts_text};

use net_world::CloneSummary;
use std::alloc::{AllocError, Global};
use tree_clock::Path;

/// How many clones a generated schedule founds.
const CLONES: usize = 4;

/// The counts of a schedule of so many lines, by what is told of its clones.
pub fn counts_text(
    alloc: Global,
    lines: u64,
    clones: &[CloneSummary],
) -> Result<Vec<u8>, AllocError>
    ensures { IfOk result (λ text. text.items ≡ counts_text lines clones.now) }
{
    let mut text = format!(in alloc; "lines {lines}\n")?.into_bytes();
    push_clones(alloc, &mut text, &clones[..clones.len().min(CLONES)])?;
    Ok(text)
}

/// Adds the counts of clones, the first of which has the number 0.
fn push_clones(alloc: Global, text: &mut Vec<u8>, clones: &[CloneSummary]) -> Result<(), AllocError>
    ensures { OnOk result (text.new.items ≡ text.old.items ++ clone_lines 0 clones.now) }
{
    for (number, clone) in clones.iter().enumerate() {
        push_clone(alloc, text, number, clone)?;
    }
    Ok(())
}

/// Adds the counts of the clone of a number.
fn push_clone(
    alloc: Global,
    text: &mut Vec<u8>,
    number: usize,
    clone: &CloneSummary,
) -> Result<(), AllocError>
    ensures { OnOk result (text.new.items ≡ text.old.items ++ clone_line number clone.now) }
{
    let ranges = clone.journal.len();
    let tagged = clone.tagged.len();
    let known = count_of_dots(&clone.known);
    let line = format!(in alloc; "clone {number} ranges {ranges} tagged {tagged} known {known}\n")?;
    text.extend_from_slice(line.as_bytes())
}

/// How many dots a clock has.
fn count_of_dots(known: &[(Path, u32)]) -> u128
    ensures { result ≡ count_of_dots known.now }
{
    let mut dots = 0;
    for (_, ticks) in known {
        dots += u128::from(*ticks);
    }
    dots
}
