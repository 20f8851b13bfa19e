//! The words of a line: where it is split, and lines that say nothing.
ghost use Rattle.std.specs.Prelude.{◌≡◌, ◌≢◌, ◌<◌, ◌++◌, ◌∷◌, ◌↔◌, ℕ, List, IsTrue, MatchOption, EachIndex, slice_index, length};
ghost use Rattle.schedule_model.specs.Lacking.{Lacks};
ghost use Rattle.schedule_model.specs.Characters.{space};
ghost use Rattle.schedule_model.specs.Schedule.{IsNothing};

/// An empty line, or a comment that is UTF-8.
pub fn is_nothing(line: &[u8]) -> bool
    ensures { IsTrue result ↔ IsNothing line.now }
{
    if line.is_empty() {
        return true;
    }
    line[0] == b'#' && str::from_utf8(line).is_ok()
}

/// Where the first space is.
fn first_space(line: &[u8]) -> Option<usize>
    ensures { MatchOption result (EachIndex line.now (λ k. slice_index line.now k ≢ space))
        (λ place. (place < length line.now) × (slice_index line.now place ≡ space)
        × ((k : ℕ) → k < place → slice_index line.now k ≢ space)) }
{
    line.iter().position(|byte| *byte == b' ')
}

/// The bytes before the first space, and those behind it.
pub fn split_at_space(line: &[u8]) -> Option<(&[u8], &[u8])>
    ensures { MatchOption result (Lacks space line.now)
        (λ parts. (line.now ≡ parts.0.now ++ space ∷ parts.1.now) × Lacks space parts.0.now) }
{
    let place = first_space(line)?;
    Some((&line[..place], &line[place + 1..]))
}

/// What follows a front, where the line has it.
pub fn behind<'a>(line: &'a [u8], front: &[u8]) -> Option<&'a [u8]>
    ensures { MatchOption result ((rest : List ℕ) → line.now ≢ front.now ++ rest)
        (λ rest. line.now ≡ front.now ++ rest.now) }
{
    line.strip_prefix(front)
}
