//! The rule of the two copies.
use crate::copies::Shown;
use crate::history::Publication;
use crossbeam_utils::rule::{Outcome, Protocol};
use std::marker::PhantomData;

/// What is shown is of the history, and its pairs are those after its list. A step under the rule tells this of what it shows.
pub struct Shows<J> {
    of: PhantomData<J>,
}

impl<J: Publication> Protocol<Shown, ()> for Shows<J> {
    ghost use Rattle.shared_reads.specs.Copies.{IsShown};

    ghost holds = { λ shown views. IsShown J.history J.opening shown };

    ghost first = { tt };
}

impl<J: Publication> Outcome<Shown, ()> for Shows<J> {
    ghost use Rattle.shared_reads.specs.Copies.{IsShown};

    ghost then = { λ before was shown after. IsShown J.history J.opening shown };
}
