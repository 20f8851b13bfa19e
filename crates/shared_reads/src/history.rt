//! The history of what is published: a log in the proofs alone, whose length is a word of the publisher's. Who holds a beginning of it that
//! was reached holds no word.
ghost use Rattle.std.specs.Prelude.{◌≡◌, false, List, IsTrue, IfSome};
ghost use Rattle.logbook.specs.Pages.{Book};
ghost use Rattle.mld_ops.specs.declared.tagged.Tagged.{Tagged};
ghost use Rattle.shared_reads.specs.Fronts.{IsFrontOf, IsLonger, nothing, onwards};
ghost use Rattle.shared_reads.specs.HistoryRule.{mark_of};

use crate::deeds::Deed;
use crate::marks::Mark;
use logbook::{Gain, Offer, Plain, Play, Rule, Seen, Start, Word};
use std::marker::{Brand, Model};

/// Which publication it is: its history, and the pairs at its opening. Each call of a program picks it.
pub trait Publication {
    ghost history: { Book };

    ghost opening: { List Tagged };
}

impl Publication for Brand {
    ghost use Rattle.std.specs.Prelude.{[]};

    ghost history = { record { number = 0; log_name = 0; cells_name = 0 } };

    ghost opening = { [] };
}

/// The rule of a history.
pub struct Law;

impl Rule<Mark, u64> for Law {
    ghost use Rattle.std.specs.Prelude.{[]};
    ghost use base.Fml.{ftrue};
    ghost use Rattle.shared_reads.specs.HistoryRule.{IsKeptHistory};

    ghost holds = { λ cells log. IsKeptHistory cells log };

    ghost first = { [] };

    ghost hinted = { λ n log. Unit {0} };

    ghost shows = { λ log. [] };

    ghost keeps = { λ names log. ftrue };

    ghost moves = { λ ask before after answer. Unit {0} };
}

/// A step trades nothing.
pub struct Nothing;

impl Gain<Mark, u64> for Nothing {
    ghost use base.Fml.{ftrue};

    ghost after = { λ names about answer. ftrue };
}

/// A step that adds a mark.
pub struct Add;

impl Play<Mark, u64> for Add {
    ghost use Rattle.shared_reads.specs.HistoryRule.{AddsMark};

    ghost then = { AddsMark };
}

/// What such a step asks for: the mark of a deed.
impl Plain<Deed, Mark, u64> for Add {
    ghost use Rattle.std.specs.Prelude.{None};
    ghost use Rattle.shared_reads.specs.HistoryRule.{mark_of};

    ghost ask = { mark_of };

    ghost state = { λ deed. None };
}

/// The word of a history, which its publisher alone has. Contracts see which history it is.
#[derive(Drop)]
pub struct History {
    word: Word<Mark, u64, Law>,
}

impl Model for History {
    ghost use Rattle.std.specs.Prelude.{◌≡◌};
    ghost use Rattle.logbook.specs.Pages.{Book};
    ghost use Rattle.shared_reads.specs.HistoryRule.{word_of};

    ghost Value = { Book };

    ghost view = { λ h. h.word.book };

    ghost invariant = { λ h. h.word ≡ word_of h.word.book };
}

/// A beginning of a history that was reached. Contracts see which history it is, and the list.
#[derive(Drop)]
pub struct Reached {
    marks: u64,
    seen: Seen<Mark, u64, Law>,
}

impl Model for Reached {
    ghost use Rattle.std.specs.Prelude.{◌≡◌, length};
    ghost use Rattle.shared_reads.specs.Fronts.{Reach, IsHistory, list_told};

    ghost Value = { Reach };

    ghost view = { λ r. record { book = r.seen.book; list = list_told r.seen.log } };

    ghost invariant = { λ r. (r.marks ≡ length r.seen.log) × IsHistory r.seen.log };
}

/// A history with nothing in it. Contracts see which one it is, by which a `Publication` names it.
#[derive(Drop)]
pub struct NewHistory {
    history: History,
    start: Reached,
}

impl Model for NewHistory {
    ghost use Rattle.std.specs.Prelude.{◌≡◌};
    ghost use Rattle.logbook.specs.Pages.{Book};
    ghost use Rattle.shared_reads.specs.Fronts.{nothing};

    ghost Value = { Book };

    ghost view = { λ n. n.history };

    ghost invariant = { λ n. n.start ≡ record { book = n.history; list = nothing } };
}

impl NewHistory {
    /// A new one.
    pub fn new() -> NewHistory {
        let (seen, mut first, _second) = Seen::open(Start::alone(), 0, 0);
        NewHistory {
            history: History {
                word: Word::tracked(0, &mut first),
            },
            start: Reached { marks: 0, seen },
        }
    }

    /// Its word, and the beginning of it with nothing in it.
    pub(crate) fn parts(self) -> (History, Reached)
        ensures history { result.0 ≡ self }
        ensures nothing { result.1 ≡ record { book = self; list = nothing } }
    {
        (self.history, self.start)
    }
}

impl Reached {
    /// A copy.
    pub fn again(&self) -> Reached
        ensures { result ≡ self.now }
    {
        Reached {
            marks: self.marks,
            seen: self.seen.again(),
        }
    }

    /// Whether it has no more marks than another of its history: then it begins that.
    pub fn is_within(&self, other: &Reached) -> bool
        requires { other.now.book ≡ self.now.book }
        ensures { IsTrue result → IsFrontOf other.now.list self.now.list }
    {
        if self.marks > other.marks {
            return false;
        }
        let mut both = self.seen.again();
        both.learn(&other.seen);
        true
    }

    /// The longer of two of one history.
    pub fn longer(&self, other: &Reached) -> Reached
        requires { other.now.book ≡ self.now.book }
        ensures book { result.book ≡ self.now.book }
        ensures list { IsLonger self.now.list other.now.list result.list }
    {
        let mut both = self.seen.again();
        both.learn(&other.seen);
        if self.marks <= other.marks {
            other.again()
        } else {
            self.again()
        }
    }

    /// The history once a deed's mark comes behind this. `None` where it is longer already, or has 2^64 - 1 marks.
    pub fn next(&self, history: &History, deed: &Deed) -> Option<Reached>
        requires history { history.now ≡ self.now.book }
        requires going { self.now.list.finished ≡ false }
        ensures { IfSome result (λ next.
            next ≡ record { book = self.now.book; list = onwards self.now.list (mark_of deed.now) }) }
    {
        if self.marks == u64::MAX {
            return None;
        }
        let mut seen = self.seen.again();
        let mut offer: Offer<Mark, u64, Law, Nothing> = seen.plain::<Nothing, Deed, Add>(deed);
        let mut pen = seen.no_pen();
        let marks = self.marks;
        let found = history
            .word
            .compare_exchange::<Add, Nothing>(marks, marks + 1, &mut seen, &mut offer, &mut pen);
        if found != marks {
            return None;
        }
        Some(Reached {
            marks: marks + 1,
            seen,
        })
    }
}
