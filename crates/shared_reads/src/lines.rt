//! The line of what a publisher publishes: its history, and the writer of the two copies.
ghost use Rattle.std.specs.Prelude.{◌≡◌, ◌≢◌, ◌≤◌, ◌++◌, [], ◌∷◌, false, drop, fold, IfOk, OnOk, OnErr};
ghost use Rattle.shared_reads.specs.declared.copies.Published.{Published as PublishedValue};
ghost use Rattle.shared_reads.specs.declared.lines.Standing.TheVariants.{Level, Ending, Broken};
ghost use Rattle.shared_reads.specs.Copies.{WaitsNext, IsShown, applied};
ghost use Rattle.shared_reads.specs.Fronts.{finished};
ghost use Rattle.shared_reads.specs.HistoryRule.{change_of};
ghost use Rattle.shared_reads.specs.PublishingLines.{AwaitsEnd, HasEnd, opened_line, changed_line, ended_line};
ghost use Rattle.shared_reads.specs.PairChanges.{pairs_after};
ghost use Rattle.shared_reads.specs.Seats.{newcomer};

use crate::copies::{Published, Shown};
use crate::deeds::Deed;
use crate::history::{History, NewHistory, Publication, Reached};
use crate::rule::Shows;
use crate::seats::{Seat, Told};
use core::mem::replace_with;
use graph_index::Graph;
use left_right::writer::Writer;
use mld_ops::Cut;
use std::alloc::{AllocError, Global};
use std::marker::Model;
use std::sync::Wait;

/// Where a line stands.
#[derive(Clone, Copy, Debug, PartialEq, Eq)]
pub enum Standing {
    /// All that is in its history is published.
    Level,
    /// The end mark is in its history, and may wait to be published.
    Ending,
    /// A change may be in its history that isn't published, and never will be.
    Broken,
}

type Copies<J> = Writer<Shown, Published, (), Shows<J>>;

/// The line of what a publisher publishes. Contracts see the published list, and where it stands. It is not `Drop`: end it by `close`.
pub struct Line<J: Publication> {
    history: History,
    // The list of all that is in the history.
    whole: Reached,
    copies: Copies<J>,
    standing: Standing,
}

impl<J: Publication> Model for Line<J> {
    ghost use Rattle.std.specs.Prelude.{drop};
    ghost use Rattle.shared_reads.specs.PublishingLines.{LineValue, IsKeptLine};

    ghost Value = { LineValue };

    ghost view = { λ l. record { list = l.copies.desk.shown.value.reach.list; standing = l.standing } };

    ghost invariant = { λ l. IsKeptLine J.history J.opening l.history l.whole l.copies.desk.shown.value
        (drop l.copies.behind l.copies.log.items) l.standing };
}

impl<J: Publication> Line<J> {
    /// A line over these pairs, with nothing published, and room for so many seats.
    pub fn open(
        alloc: Global,
        history: NewHistory,
        graph: &Graph,
        seats: u8,
    ) -> Result<Line<J>, AllocError>
        requires seats { 1 ≤ seats }
        requires history { history ≡ J.history }
        requires opening { graph.now.pairs ≡ J.opening }
        ensures { IfOk result (λ line. line ≡ opened_line) }
    {
        let (history, whole) = history.parts();
        let first = Shown::new(graph.renewed(alloc)?, whole.again());
        let second = Shown::new(graph.renewed(alloc)?, whole.again());
        let copies = Writer::new(alloc, first, second, usize::from(seats))?;
        Ok(Line {
            history,
            whole,
            copies,
            standing: Standing::Level,
        })
    }

    /// A new seat, of a line with nothing published.
    ///
    /// # Errors
    ///
    /// `AllocError` where memory is wanting, or there are as many seats as the line has room for.
    pub fn seat(&self) -> Result<Seat<J>, AllocError>
        requires { self.now ≡ opened_line }
        ensures { IfOk result (λ seat. seat ≡ newcomer) }
    {
        let reader = self.copies.factory().reader()?;
        Ok(Seat::new(reader, &self.whole))
    }

    /// The pairs after what is published.
    pub fn graph(&self) -> &Graph
        ensures { result.now.pairs ≡ pairs_after J.opening self.now.list.changes }
    {
        self.copies.published().graph()
    }

    /// Where it stands.
    pub fn standing(&self) -> Standing
        ensures { result ≡ self.now.standing }
    {
        self.standing
    }

    /// What is published.
    pub fn tell(&self) -> Told<J>
        ensures { result ≡ self.now.list }
    {
        Told::new(self.copies.published().list())
    }

    /// Publishes a change. It waits for seats that still read.
    pub fn change<R: Wait>(&mut self, rt: &R, alloc: Global, cut: Cut) -> Result<(), AllocError>
        requires going { self.old.list.finished ≡ false }
        requires level { self.old.standing ≡ Level }
        ensures ok { OnOk result (self.new ≡ changed_line self.old (change_of cut)) }
        ensures err { OnErr result (self.new.list ≡ self.old.list) }
    {
        let deed = Deed::Cut(cut);
        let Some(next) = self.whole.next(&self.history, &deed) else {
            return Err(AllocError);
        };
        self.standing = Standing::Broken;
        let list = next.again();
        append(&mut self.copies, Published { alloc, deed, list })?;
        replace_with(&mut self.copies, rt, turn::<J, R>)?;
        self.whole = next;
        self.standing = Standing::Level;
        Ok(())
    }

    /// Publishes the end mark. It waits for seats that still read. After a refusal it may be tried again.
    pub fn end<R: Wait>(&mut self, rt: &R, alloc: Global) -> Result<(), AllocError>
        requires going { self.old.list.finished ≡ false }
        requires whole { self.old.standing ≢ Broken }
        ensures ok { OnOk result (self.new ≡ ended_line self.old) }
        ensures err { OnErr result ((self.new.list ≡ self.old.list) × (self.new.standing ≢ Broken)) }
    {
        self.note_end()?;
        append_end(&mut self.copies, alloc, &self.whole)?;
        replace_with(&mut self.copies, rt, turn::<J, R>)?;
        self.standing = Standing::Level;
        Ok(())
    }

    // Puts the end mark into the history, unless it is there.
    fn note_end(&mut self) -> Result<(), AllocError>
        requires going { self.old.list.finished ≡ false }
        requires whole { self.old.standing ≢ Broken }
        ensures list { self.new.list ≡ self.old.list }
        ensures ok { OnOk result (self.new.standing ≡ Ending) }
        ensures err { OnErr result (self.new.standing ≢ Broken) }
    {
        let Standing::Level = self.standing else {
            return Ok(());
        };
        let Some(next) = self.whole.next(&self.history, &Deed::End) else {
            return Err(AllocError);
        };
        self.whole = next;
        self.standing = Standing::Ending;
        Ok(())
    }

    /// Waits for seats that still read, and ends.
    pub fn close<R: Wait>(self, rt: &R) {
        let Line {
            history: _history,
            whole: _whole,
            copies,
            standing: _,
        } = self;
        drop(copies.take(rt));
    }
}

// Has a swap publish one thing more.
fn append<J: Publication>(copies: &mut Copies<J>, published: Published) -> Result<(), AllocError>
    ensures shown { copies.new.desk.shown.value ≡ copies.old.desk.shown.value }
    ensures ok { OnOk result (drop copies.new.behind copies.new.log.items
        ≡ drop copies.old.behind copies.old.log.items ++ published ∷ []) }
    ensures err { OnErr result (drop copies.new.behind copies.new.log.items
        ≡ drop copies.old.behind copies.old.log.items) }
{
    match copies.append(published) {
        Ok(()) => Ok(()),
        Err(_) => Err(AllocError),
    }
}

// Has a swap publish the end, unless it does already.
fn append_end<J: Publication>(
    copies: &mut Copies<J>,
    alloc: Global,
    whole: &Reached,
) -> Result<(), AllocError>
    requires end { whole.now ≡ record {
      book = copies.old.desk.shown.value.reach.book;
      list = finished copies.old.desk.shown.value.reach.list;
    } }
    requires waits { AwaitsEnd copies.old.desk.shown.value (drop copies.old.behind copies.old.log.items) }
    ensures shown { copies.new.desk.shown.value ≡ copies.old.desk.shown.value }
    ensures waits { AwaitsEnd copies.old.desk.shown.value (drop copies.new.behind copies.new.log.items) }
    ensures ok { OnOk result (HasEnd copies.old.desk.shown.value (drop copies.new.behind copies.new.log.items)) }
{
    if copies.has_pending_operations() {
        return Ok(());
    }
    let published = Published {
        alloc,
        deed: Deed::End,
        list: whole.again(),
    };
    append(copies, published)
}

// Publishes the one thing that waits.
fn turn<J: Publication, R: Wait>(copies: Copies<J>, rt: &R) -> (Copies<J>, Result<(), AllocError>)
    requires shown { IsShown J.history J.opening copies.desk.shown.value }
    requires next { (next : PublishedValue) × WaitsNext copies.desk.shown.value (drop copies.behind copies.log.items) next }
    ensures shown { IsShown J.history J.opening result.0.desk.shown.value }
    ensures ok { OnOk result.1 (result.0.desk.shown.value
        ≡ fold applied copies.desk.shown.value (drop copies.behind copies.log.items)) }
    ensures none { OnOk result.1 (drop result.0.behind result.0.log.items ≡ []) }
    ensures same { OnErr result.1 (result.0.desk.shown.value ≡ copies.desk.shown.value) }
    ensures waits { OnErr result.1 (drop result.0.behind result.0.log.items ≡ drop copies.behind copies.log.items) }
{
    copies.publish_as::<Shows<J>, R>(rt)
}
