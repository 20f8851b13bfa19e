//! What calls answer, and what is written of that.
use rdf_terms::TripleFault;
use std::io::{self, Print};

/// What a call answered, or several of it.
#[derive(Clone, Copy)]
pub struct Answer {
    /// How many pairs were found.
    pub found: u64,
    /// How many times they weren't those of the plain list.
    pub differ: u64,
}

/// What each call answered.
pub type Answers = [Answer; 12];

/// No call was made yet.
pub const NO_ANSWER: Answer = Answer {
    found: 0,
    differ: 0,
};

/// No call was made yet, of any kind.
pub const NO_ANSWERS: Answers = [NO_ANSWER; 12];

/// The calls, in the order of their answers.
const CALLS: &[&str] = &[
    "count, to_list and has of each",
    "has and has_triple",
    "of_triple and tags_of",
    "of_range",
    "scan",
    "scan s",
    "scan p",
    "scan o",
    "scan s p",
    "scan p o",
    "scan s o",
    "scan s p o",
];

impl Answer {
    /// The answer that so many pairs were found, and whether they are those of the plain list.
    pub fn of(found: usize, is_so: bool) -> Answer {
        Answer {
            found: found as u64,
            differ: u64::from(!is_so),
        }
    }
}

/// Adds answers to those that there were.
pub fn add(sums: &mut Answers, answers: &Answers) {
    for (sum, answer) in sums.iter_mut().zip(answers) {
        sum.found = sum.found.saturating_add(answer.found);
        sum.differ = sum.differ.saturating_add(answer.differ);
    }
}

/// Writes what a part answered, or why it stopped. The status is 0 where all is as in a plain list, 1 where something differs, and 2 where
/// the part stopped.
pub fn tell<R: Print>(rt: &R, part: &str, answers: Result<Answers, TripleFault>) -> io::Result<u8> {
    match answers {
        Ok(answers) => tell_answers(rt, part, &answers),
        Err(fault) => {
            println!(rt; "{part}: {fault}")?;
            Ok(2)
        }
    }
}

/// Writes what a part answered.
fn tell_answers<R: Print>(rt: &R, part: &str, answers: &Answers) -> io::Result<u8> {
    let mut status = 0;
    for (call, answer) in CALLS.iter().zip(answers) {
        print!(rt; "{part}: {} found by {call}, ", answer.found)?;
        if answer.differ == 0 {
            println!(rt; "as a plain list")?;
        } else {
            println!(rt; "{} answers differ from a plain list", answer.differ)?;
            status = 1;
        }
    }
    Ok(status)
}
