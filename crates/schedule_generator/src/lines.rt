//! The lines of a generated schedule.
ghost use Rattle.std.specs.Prelude.{◌≡◌, ◌<◌, ◌+◌, ◌++◌, ◌∷◌, [], IfOk, OnOk};
ghost use Rattle.std.specs.String.{string_bytes};
ghost use Rattle.mld_io.specs.Lines.{line_break};
ghost use Rattle.schedule_generator.specs.Generated.{change, delivery, of_clone, of_clone_and, one_of_three, drawn_line, generated, text_of};

use crate::draws::Draws;
use mld_io::Piece;
use std::alloc::{AllocError, Global};

/// The schedule of a seed: a domain line, and then `n` commands. The lines have no LF.
pub fn generate(alloc: Global, seed: u64, n: u32) -> Result<Vec<Piece>, AllocError>
    ensures lines { IfOk result (λ lines. lines.items ≡ generated seed n) }
{
    let mut lines = Vec::new(alloc);
    lines.push(Piece::copy_in(alloc, b"domain gen.example clones 4")?)?;
    let mut draws = Draws { state: seed };
    for number in 0..n {
        let line = command_line(alloc, &mut draws, u64::from(number) + 1)?;
        lines.push(Piece::from_vec(line.into_bytes()))?;
    }
    Ok(lines)
}

/// The text of lines: each with its LF.
pub fn text_of(alloc: Global, lines: &[Piece]) -> Result<Vec<u8>, AllocError>
    ensures text { IfOk result (λ text. text.items ≡ text_of lines.now) }
{
    let mut text = Vec::new(alloc);
    for line in lines {
        push_line(&mut text, line.as_slice())?;
    }
    Ok(text)
}

/// Adds a line with its LF.
fn push_line(text: &mut Vec<u8>, line: &[u8]) -> Result<(), AllocError>
    ensures { OnOk result (text.new.items ≡ text.old.items ++ (line.now ++ line_break ∷ [])) }
{
    text.extend_from_slice(line)?;
    text.push(b'\n')?;
    Ok(())
}

/// A command line: a change of a clone's triples at six of ten draws, a delivery at two, a question at one, and else one of three others.
#[tactic(auto, using(std::proofs::lemmas::List::append_assoc), unfolding(crate::specs::Generated::drawn_line))]
fn command_line(alloc: Global, draws: &mut Draws, number: u64) -> Result<String, AllocError>
    requires { 0 < number }
    ensures line { IfOk result (λ line. string_bytes line ≡ (drawn_line number draws.old.state).line) }
    ensures state { draws.new.state ≡ (drawn_line number draws.old.state).state }
{
    match draws.draw(10) {
        0..=4 => change(alloc, draws, "add"),
        5 => change(alloc, draws, "remove"),
        6 | 7 => delivery(alloc, draws, number),
        8 => of_clone(alloc, draws, "ask"),
        _ => one_of_three(alloc, draws),
    }
}

/// `compact`, `truncate` or `compare`.
#[tactic(auto, using(std::proofs::lemmas::List::append_assoc), unfolding(crate::specs::Generated::one_of_three))]
fn one_of_three(alloc: Global, draws: &mut Draws) -> Result<String, AllocError>
    ensures line { IfOk result (λ line. string_bytes line ≡ (one_of_three draws.old.state).line) }
    ensures state { draws.new.state ≡ (one_of_three draws.old.state).state }
{
    match draws.draw(3) {
        0 => of_clone(alloc, draws, "compact"),
        1 => of_clone_and(alloc, draws, "truncate", 20),
        _ => of_clone_and(alloc, draws, "compare", 4),
    }
}

/// A word, a clone and a triple.
#[tactic(auto, using(std::proofs::lemmas::List::append_assoc), unfolding(crate::specs::Generated::change))]
fn change(alloc: Global, draws: &mut Draws, word: &str) -> Result<String, AllocError>
    ensures line { IfOk result (λ line. string_bytes line ≡ (change word.now draws.old.state).line) }
    ensures state { draws.new.state ≡ (change word.now draws.old.state).state }
{
    let clone = draws.draw(4);
    let subject = draws.draw(50);
    let predicate = draws.draw(5);
    let text = draws.draw(20);
    format!(in alloc;
        "{word} {clone} <http://gen.example/s{subject}> <http://gen.example/#p{predicate}> \"{text}\" ."
    )
}

/// `deliver`, a message and a clone. Of the messages as many are drawn as lines stand before this one.
#[tactic(auto, using(std::proofs::lemmas::List::append_assoc), unfolding(crate::specs::Generated::delivery))]
fn delivery(alloc: Global, draws: &mut Draws, number: u64) -> Result<String, AllocError>
    requires { 0 < number }
    ensures line { IfOk result (λ line. string_bytes line ≡ (delivery number draws.old.state).line) }
    ensures state { draws.new.state ≡ (delivery number draws.old.state).state }
{
    let message = draws.draw(number) + 1;
    let clone = draws.draw(4);
    format!(in alloc; "deliver {message} {clone}")
}

/// A word and a clone.
#[tactic(auto, using(std::proofs::lemmas::List::append_assoc), unfolding(crate::specs::Generated::of_clone))]
fn of_clone(alloc: Global, draws: &mut Draws, word: &str) -> Result<String, AllocError>
    ensures line { IfOk result (λ line. string_bytes line ≡ (of_clone word.now draws.old.state).line) }
    ensures state { draws.new.state ≡ (of_clone word.now draws.old.state).state }
{
    let clone = draws.draw(4);
    format!(in alloc; "{word} {clone}")
}

/// A word, a clone, and a number below `count`.
#[tactic(auto, using(std::proofs::lemmas::List::append_assoc), unfolding(crate::specs::Generated::of_clone_and))]
fn of_clone_and(
    alloc: Global,
    draws: &mut Draws,
    word: &str,
    count: u64,
) -> Result<String, AllocError>
    requires { 0 < count }
    ensures line { IfOk result (λ line. string_bytes line ≡ (of_clone_and word.now count draws.old.state).line) }
    ensures state { draws.new.state ≡ (of_clone_and word.now count draws.old.state).state }
{
    let clone = draws.draw(4);
    let number = draws.draw(count);
    format!(in alloc; "{word} {clone} {number}")
}
