//! Seats, which read beside the publisher, and what they are told.
ghost use Rattle.std.specs.Prelude.{◌≡◌, ◌<◌, ◌≤◌, ◌⊎◌, length, IfOk, IfErr, IfSome, OnOk, IsErrOf};
ghost use Rattle.jrql_ast.specs.InForm.{IsQueryInForm, IsAnswerTo};
ghost use Rattle.jrql_ast.specs.QueryAnswers.{solution_limit, found, IsAnswer};
ghost use Rattle.jrql_eval.specs.declared.faults.EvalFault.{EvalFault};
ghost use Rattle.mld_ops.specs.Present.{present};
ghost use Rattle.shared_reads.specs.Fronts.{IsFrontOf, IsLonger, nothing};
ghost use Rattle.shared_reads.specs.PairChanges.{pairs_after};
ghost use Rattle.shared_reads.specs.Seats.{Continues, ReadsOver, newcomer};

use crate::copies::Shown;
use crate::history::{Publication, Reached};
use crate::rule::Shows;
use graph_index::Graph;
use jrql_ast::{Answer, Query, What};
use jrql_eval::{EvalFault, describe, select};
use left_right::reader::Reader;
use std::alloc::Global;
use std::marker::{Model, PhantomData};

/// A list of published changes, for a seat to learn. It takes no memory, and may go to any thread. Contracts see the list.
#[derive(Drop)]
pub struct Told<J: Publication> {
    list: Reached,
    of: PhantomData<J>,
}

impl<J: Publication> Model for Told<J> {
    ghost use Rattle.std.specs.Prelude.{◌≡◌};
    ghost use Rattle.shared_reads.specs.declared.marks.Front.{Front};

    ghost Value = { Front };

    ghost view = { λ t. t.list.list };

    ghost invariant = { λ t. t.list.book ≡ J.history };
}

impl<J: Publication> Told<J> {
    /// This list.
    pub(crate) fn new(list: &Reached) -> Told<J>
        requires { list.now.book ≡ J.history }
        ensures { result ≡ list.now.list }
    {
        Told {
            list: list.again(),
            of: PhantomData,
        }
    }
}

pub(crate) type SeatReader<J> = Reader<Shown, (), Shows<J>>;

/// A place to read from beside the publisher. Contracts see the list that it saw last, and the longest that it was told of.
#[derive(Drop)]
pub struct Seat<J: Publication> {
    // It has it but while it reads.
    reader: Option<SeatReader<J>>,
    seen: Reached,
    told: Reached,
}

impl<J: Publication> Model for Seat<J> {
    ghost use Rattle.std.specs.Prelude.{◌≡◌, IsSome};
    ghost use Rattle.shared_reads.specs.Seats.{Seated};

    ghost Value = { Seated };

    ghost view = { λ s. record { seen = s.seen.list; told = s.told.list } };

    ghost invariant = { λ s. IsSome s.reader × (s.seen.book ≡ J.history) × (s.told.book ≡ J.history) };
}

impl<J: Publication> Seat<J> {
    /// A seat that saw nothing yet, by the beginning of the history with nothing in it.
    pub(crate) fn new(reader: SeatReader<J>, opening: &Reached) -> Seat<J>
        requires book { opening.now.book ≡ J.history }
        requires list { opening.now.list ≡ nothing }
        ensures { result ≡ newcomer }
    {
        Seat {
            reader: Some(reader),
            seen: opening.again(),
            told: opening.again(),
        }
    }

    /// The seat is told of that list: from now on it sees no less. It takes no memory.
    pub fn learn(&mut self, told: Told<J>)
        ensures told { IsLonger self.old.told told self.new.told }
        ensures seen { self.new.seen ≡ self.old.seen }
    {
        self.told = self.told.longer(&told.list);
    }

    /// The answer to a query over the triples that are present after a list of published changes, which holds all that the seat saw
    /// before and was told of (SPARQL 1.1 Query Language, section 16). The seat has then seen that list. It waits for nobody.
    ///
    /// # Errors
    ///
    /// `TooMany` where the query's group has more than 1,048,576 solutions after such a list, which the seat has then seen. `NoMemory`
    /// leaves the seat as it was, or it has seen such a list.
    pub fn query(&mut self, alloc: Global, query: &Query) -> Result<Answer, EvalFault>
        requires { IsQueryInForm query.now }
        ensures list { OnOk result (Continues self.old self.new) }
        ensures left { IfErr result (λ fault. (self.new ≡ self.old) × (fault ≡ EvalFault.NoMemory)
            ⊎ Continues self.old self.new) }
        ensures answer { IfOk result (IsAnswer (present (pairs_after J.opening self.new.seen.changes)) query.now) }
        ensures kind { IfOk result (IsAnswerTo query.now.what) }
        ensures few { IfOk result (λ answer.
            length (found (present (pairs_after J.opening self.new.seen.changes)) query.now.group) ≤ solution_limit) }
        ensures too_many { IsErrOf result EvalFault.TooMany
            → solution_limit < length (found (present (pairs_after J.opening self.new.seen.changes)) query.now.group) }
    {
        let reader = self.reader.take().unwrap();
        let (reader, entered) = enter(alloc, reader, query, &self.seen, &self.told);
        self.reader = Some(reader);
        let Some((list, answer)) = entered else {
            return Err(EvalFault::NoMemory);
        };
        self.seen = list;
        answer
    }
}

// Enters, answers where the list there holds these two, and leaves. It gives that list with the answer.
fn enter<J: Publication>(
    alloc: Global,
    reader: SeatReader<J>,
    query: &Query,
    seen: &Reached,
    told: &Reached,
) -> (SeatReader<J>, Option<(Reached, Result<Answer, EvalFault>)>)
    requires form { IsQueryInForm query.now }
    requires seen { seen.now.book ≡ J.history }
    requires told { told.now.book ≡ J.history }
    ensures book { IfSome result.1 (λ entered. entered.0.book ≡ J.history) }
    ensures holds { IfSome result.1 (λ entered. IsFrontOf entered.0.list seen.now.list × IsFrontOf entered.0.list told.now.list) }
    ensures read { IfSome result.1 (λ entered. ReadsOver (pairs_after J.opening entered.0.list.changes) query.now entered.1) }
{
    let reading = match reader.enter_as::<Shows<J>>() {
        Ok(reading) => reading,
        Err(reader) => return (reader, None),
    };
    let entered = read(alloc, reading.get(), query, seen, told);
    (reading.leave(), entered)
}

// Answers where the list of what is shown holds these two, and gives it with the answer.
fn read(
    alloc: Global,
    shown: &Shown,
    query: &Query,
    seen: &Reached,
    told: &Reached,
) -> Option<(Reached, Result<Answer, EvalFault>)>
    requires form { IsQueryInForm query.now }
    requires seen { seen.now.book ≡ shown.now.reach.book }
    requires told { told.now.book ≡ shown.now.reach.book }
    ensures list { IfSome result (λ entered. entered.0 ≡ shown.now.reach) }
    ensures saw { IfSome result (λ entered. IsFrontOf entered.0.list seen.now.list) }
    ensures knew { IfSome result (λ entered. IsFrontOf entered.0.list told.now.list) }
    ensures read { IfSome result (λ entered. ReadsOver shown.now.pairs query.now entered.1) }
{
    // What is shown only grows, so this is so; but no type says it.
    let list = shown.list();
    if !seen.is_within(list) || !told.is_within(list) {
        return None;
    }
    Some((list.again(), answer(alloc, shown.graph(), query)))
}

// The answer over a graph.
fn answer(alloc: Global, graph: &Graph, query: &Query) -> Result<Answer, EvalFault>
    requires { IsQueryInForm query.now }
    ensures { ReadsOver graph.now.pairs query.now result }
{
    match &query.what {
        What::Select(_) => select(alloc, graph, query),
        What::Describe(_) => describe(alloc, graph, query),
    }
}
