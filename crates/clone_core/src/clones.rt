//! The clone.
ghost use Rattle.std.specs.Prelude.{◌≡◌, MatchOption};
ghost use Rattle.clone_core.specs.CloneCalls.{HasRange, LacksRange};
ghost use Rattle.clone_parts.specs.Plans.{left_of};

use causal_buffer::{Held, HeldFault, is_known, is_ready};
use clone_parts::{
    Covering, Got, ReceiveFault, Replayed, append_entries, append_fork, create, prepare_plan,
    push_all,
};
use graph_index::Graph;
use journal_store::{Blank, Head, Journal, MakeFault, Why};
use mld_io::{Banks, CrashBanks, Leave};
use mld_ops::{Entry, Give, Given, Message, Messages, PairList, Snapshot, Tagged, kept_properties};
use rdf_terms::Iri;
use std::alloc::{AllocError, Global};
use std::marker::Model;
use std::thread::Threads;
use text_rules::Text;
use tree_clock::{Clock, Leaf, PATH_LIMIT, Path, Range};
use uuid::Uuid;

/// A clone on its banks: its id, domain, single-valued properties and leaf; the clock and the pairs of its base; its clock, the entries
/// of its journal, those that it holds back, and its pairs, ascending; and the journal on its banks, which is closed where the clone is.
#[derive(Drop)]
pub struct MldClone<B: Banks> {
    pub(crate) id: Uuid,
    pub(crate) domain: Text,
    pub(crate) properties: Vec<Iri>,
    pub(crate) leaf: Leaf,
    pub(crate) base: Clock,
    pub(crate) base_pairs: PairList,
    pub(crate) clock: Clock,
    pub(crate) entries: Vec<Entry>,
    pub(crate) held: Held,
    pub(crate) pairs: Graph,
    pub(crate) journal: Journal<B>,
}

impl<B: Banks> Model for MldClone<B> {
    ghost use Rattle.mld_model.specs.Local.{IsLocal};
    ghost use Rattle.clone_core.specs.Banked.{BankedClone, IsOnBanks};
    ghost use Rattle.clone_core.specs.View.{local_of};

    ghost Value = { BankedClone B };

    ghost view = { λ c. record { local = local_of c; generation = c.journal.generation; closed = c.journal.closed; banks = c.journal.banks } };

    ghost invariant = { λ c. IsLocal (local_of c)
        × IsOnBanks (B.log c.journal.banks) c.journal.closed c.journal.side c.journal.generation (local_of c) };
}

impl<B: Banks> MldClone<B> {
    ghost use Rattle.std.specs.Prelude.{◌≡◌, ◌≢◌, ◌<◌, ◌↔◌, ◌-◌, ◌^◌, ◌∷◌, [], ℕ, List, true, false, length, None, Some, IsTrue, IfOk, IfErr, IsOk, OnOk, OnErr, IsErrOf, MatchOption};
    ghost use Rattle.mld_io.specs.Disk.{Log};
    ghost use Rattle.journal_sides.specs.Heads.{head_value};
    ghost use Rattle.journal_store.specs.declared.faults.Why.{Why};
    ghost use Rattle.clone_parts.specs.KeptSteps.{KeptStep};
    ghost use Rattle.clone_core.specs.Banked.{IsOnBanks, KeepsClone, head_of};
    ghost use Rattle.clone_core.specs.FoundClone.{begun_clone, found_clone};
    ghost use Rattle.clone_core.specs.CloneClosing.{StaysOpen, LeavesClone, receive_stop, banks_of_made, FailsToFound, GivesBanksBack};
    ghost use Rattle.clone_core.specs.DurableCalls.{Changes, Creates, MessageSteps};
    ghost use Rattle.clone_core.specs.Due.{IsDueEntry, IsDueAsk, IsDueMessage, IsSwapDue, IsMessageSpent};
    ghost use Rattle.clone_core.specs.Joining.{AnswersGood, RefusesAsk};
    ghost use Rattle.text_rules.specs.Domain.{is_domain};
    ghost use Rattle.rdf_terms.specs.Order.{iri_cmp};
    ghost use Rattle.mld_ops.specs.declared.messages.Message.TheVariants as kinds;
    ghost use Rattle.mld_ops.specs.Messages.{snapshot_value, message_value, IsGoodSnapshot, IsGoodMessage};
    ghost use Rattle.mld_ops.specs.Properties.{AreKept};
    ghost use Rattle.clone_core.specs.CloneCalls.{LocallyReceives, ReceivesEntry, RefusesEntry, ReceivesAsk, Refuses, covering_reply, HasRange, LacksRange};
    ghost use Rattle.clone_core.specs.CallParts.{StopsClone, StopsReceiving, IsFullAt, BeginsJournal};
    ghost use Rattle.clone_core.specs.Merging.{StaysOpenBy};
    ghost use Rattle.mld_model.specs.Comparing.{ClocksCompare};
    ghost use Rattle.mld_model.specs.Local.{IsLocal, IsNamed, blank_clone, snapshot_of, LocallyHolds, IsForeign};
    ghost use Rattle.mld_ops.specs.Tagged.{tagged_cmp};
    ghost use Rattle.tree_clock.specs.Clock.{IsClock};
    ghost use Rattle.tree_clock.specs.Lists.{IsAscending};

    /// The first clone of a domain, at the root path, which keeps these properties in order. It knows nothing. Its banks keep it from
    /// then on, by one create.
    ///
    /// # Errors
    ///
    /// `Device` where the device failed, and `NoMemory`. The banks are given back.
    pub fn genesis(
        alloc: Global,
        blank: Blank<B>,
        id: Uuid,
        domain: Text,
        properties: Vec<Iri>,
    ) -> Result<MldClone<B>, (MakeFault, B)>
        requires { IsTrue (is_domain domain) }
        ensures kept { IfOk result (λ clone. AreKept properties.items clone.local.properties) }
        ensures blank { IfOk result (λ clone. clone.local ≡ blank_clone id domain clone.local.properties []) }
        ensures opened { IfOk result (λ clone. clone.closed ≡ None) }
        ensures generation { IfOk result (λ clone. clone.generation ≡ 1) }
        ensures durable { (kept : List (List ℕ)) × AreKept properties.items kept
            × Creates B.log B.meter (head_of (blank_clone id domain kept [])) blank (banks_of_made result)
            (IsOk result) (FailsToFound result) }
        ensures err { IfErr result (GivesBanksBack B.log B.meter blank) }
    {
        let head = Head {
            id,
            domain,
            props: kept_properties(properties),
            path: Path::root(),
            base: Clock::empty(alloc),
            tagged: PairList::new(alloc),
        };
        match create(alloc, blank, &head) {
            Ok(journal) => Ok(MldClone::beginning(
                alloc,
                head,
                Leaf::genesis(),
                Clock::empty(alloc),
                Graph::empty(alloc),
                journal,
            )),
            Err(refused) => Err(refused),
        }
    }

    // An open clone that begins with what a head has, of whose base the clock and the pairs are copies, at this leaf, with no entries.
    pub(crate) fn beginning(
        alloc: Global,
        head: Head,
        leaf: Leaf,
        clock: Clock,
        pairs: Graph,
        journal: Journal<B>,
    ) -> MldClone<B>
        requires named { IsNamed head.domain head.props.items }
        requires base_clock { IsClock head.base.ticks }
        requires base { IsGoodSnapshot (head_value head).base }
        requires path { leaf ≡ head.path }
        requires clock { clock.ticks ≡ head.base.ticks }
        requires pairs { pairs.pairs ≡ head.tagged }
        requires begins { BeginsJournal (head_value head) journal (B.log journal.banks) }
        ensures { result
            ≡ record { local = begun_clone (head_value head); generation = 1; closed = None; banks = journal.banks } }
    {
        let replayed = Replayed {
            clock,
            entries: Vec::new(alloc),
            pairs,
        };
        MldClone::found(alloc, head, leaf, replayed, journal)
    }

    // An open clone that has what a head and the entries of its journal lead to, at this leaf, and holds nothing back.
    pub(crate) fn found(
        alloc: Global,
        head: Head,
        leaf: Leaf,
        replayed: Replayed,
        journal: Journal<B>,
    ) -> MldClone<B>
        requires local { IsLocal (found_clone (head_value head) leaf replayed) }
        requires opened { journal.closed ≡ None }
        requires banks { IsOnBanks (B.log journal.banks) None journal.side journal.generation
            (found_clone (head_value head) leaf replayed) }
        ensures { result ≡ record {
          local = found_clone (head_value head) leaf replayed;
          generation = journal.generation;
          closed = None;
          banks = journal.banks;
        } }
    {
        let Head {
            id,
            domain,
            props,
            path: _,
            base,
            tagged,
        } = head;
        MldClone {
            id,
            domain,
            properties: props,
            leaf,
            base,
            base_pairs: tagged,
            clock: replayed.clock,
            entries: replayed.entries,
            held: Held::empty(alloc),
            pairs: replayed.pairs,
            journal,
        }
    }

    /// The clone's id.
    pub fn id(&self) -> Uuid
        ensures { result ≡ self.now.local.id }
    {
        self.id
    }

    /// The clone's domain.
    pub fn domain(&self) -> &str
        ensures domain { result.now ≡ self.now.local.domain }
        ensures name { IsTrue (is_domain self.now.local.domain) }
    {
        self.domain.as_str()
    }

    /// The properties that have one value at most for each subject, ascending as terms.
    pub fn properties(&self) -> &[Iri]
        ensures properties { result.now ≡ self.now.local.properties }
        ensures ascending { IsAscending iri_cmp self.now.local.properties }
    {
        self.properties.as_slice()
    }

    /// The path of the clone's leaf.
    pub fn path(&self) -> Path
        ensures { result ≡ self.now.local.path }
    {
        self.leaf.path()
    }

    /// The dots of the clone's base.
    pub fn base(&self) -> &Clock
        ensures { result.now.ticks ≡ self.now.local.base }
    {
        &self.base
    }

    /// The pairs of the clone's base, ascending.
    pub fn base_pairs(&self) -> &PairList
        ensures { result.now ≡ self.now.local.base_pairs }
    {
        &self.base_pairs
    }

    /// The entries of the clone's journal, in the order in which it took them.
    pub fn journal(&self) -> &[Entry]
        ensures { result.now ≡ self.now.local.entries }
    {
        self.entries.as_slice()
    }

    /// The entries that the clone holds back, in order of arrival.
    pub fn held(&self) -> &[Entry]
        ensures { result.now ≡ self.now.local.held }
    {
        self.held.as_slice()
    }

    /// The dots that the clone knows.
    pub fn known(&self) -> &Clock
        ensures ticks { result.now.ticks ≡ self.now.local.ticks }
        ensures local { IsLocal self.now.local }
    {
        &self.clock
    }

    /// The clone's pairs, ascending.
    pub fn pairs(&self) -> &Graph
        ensures pairs { result.now.pairs ≡ self.now.local.pairs }
        ensures ascending { IsAscending tagged_cmp self.now.local.pairs }
    {
        &self.pairs
    }

    /// A copy of the clone's pairs, ascending.
    pub fn tagged(&self, alloc: Global) -> Result<Vec<Tagged>, AllocError>
        ensures { IfOk result (λ pairs. pairs.items ≡ self.now.local.pairs) }
    {
        self.pairs.to_list(alloc)
    }

    /// The entry of the journal that has this very range.
    pub fn entry_of(&self, range: &Range) -> Option<&Entry>
        ensures { MatchOption result (LacksRange self.now.local.entries range.now) (λ entry.
            HasRange self.now.local.entries range.now entry.now) }
    {
        entry_in(self.journal(), range)
    }

    /// Why an earlier call closed the clone, if one did: its device failed, or there was no memory behind a call of the device. Where none
    /// did, its banks keep it, whatever a crash leaves of them.
    pub fn is_closed(&self) -> Option<Why>
        ensures closed { result ≡ self.now.closed }
        ensures kept { self.now.closed ≡ None → (log : Log) → B.log self.now.banks ≡ Some log
            → KeepsClone self.now.local self.now.generation log }
    {
        self.journal.is_closed()
    }

    /// Carries a fact and does nothing: the banks of an open clone keep it, whatever a crash leaves of them.
    pub fn tell_banks_keep(&self)
        ensures { self.now.closed ≡ None → (log : Log) → B.log self.now.banks ≡ Some log
            → KeepsClone self.now.local self.now.generation log }
    {
        self.is_closed();
    }

    /// The banks of the clone, which stops. What it holds back is forgotten. It takes no memory.
    pub fn stop(self) -> B
        ensures banks { result ≡ self.banks }
        ensures kept { self.closed ≡ None → (log : Log) → B.log result ≡ Some log
            → KeepsClone self.local self.generation log }
    {
        self.journal.into_banks()
    }

    /// The pairs of the clone, ascending, moved out of it, and its banks: the clone stops. All else that it has is let go before the list
    /// is made.
    ///
    /// # Errors
    ///
    /// `AllocError` where memory is wanting; the banks are let go then.
    pub fn into_tagged(self, alloc: Global) -> Result<(Vec<Tagged>, B), AllocError>
        ensures pairs { IfOk result (λ left. left.0.items ≡ self.local.pairs) }
        ensures banks { IfOk result (λ left. left.1 ≡ self.banks) }
        ensures kept { self.closed ≡ None → IfOk result (λ left. (log : Log) → B.log left.1 ≡ Some log
            → KeepsClone self.local self.generation log) }
    {
        let (pairs, banks) = self.into_parts();
        let list = pairs.into_list(alloc)?;
        Ok((list, banks))
    }

    // The pairs of the clone, and its banks. All else that it has is let go. It takes no memory.
    fn into_parts(self) -> (Graph, B)
        ensures pairs { (result.0).pairs ≡ self.local.pairs }
        ensures banks { result.1 ≡ self.banks }
        ensures kept { self.closed ≡ None → (log : Log) → B.log result.1 ≡ Some log
            → KeepsClone self.local self.generation log }
    {
        (self.pairs, self.journal.into_banks())
    }

    // Whether the generation of what the banks keep is the last one, so that nothing can be swapped.
    pub(crate) fn is_last_generation(&self) -> bool
        ensures { IsTrue result ↔ (self.now.generation ≡ 2 ^ 64 - 1) }
    {
        self.journal.is_last_generation()
    }

    /// How the dots that this clone knows compare with those of another.
    pub fn compare(&self, other: &MldClone<B>) -> Covering
        ensures { ClocksCompare self.now.local.ticks other.now.local.ticks (covering_reply result) }
    {
        match (self.clock.leq(&other.clock), other.clock.leq(&self.clock)) {
            (true, true) => Covering::Same,
            (true, false) => Covering::Less,
            (false, true) => Covering::More,
            (false, false) => Covering::Apart,
        }
    }

    /// Takes an entry that is ready, and then those held back that this releases; or holds it back. Forks the leaf for who asks for one.
    /// Answers a want by the entries of the journal that it lacks, or by a snapshot where it lacks dots of the base. Merges a snapshot
    /// that has dots which the clone lacks, and then takes the entries held back that this releases. A leaf that is given is ignored. A
    /// snapshot in the message is one that may be taken. What the banks keep is swapped for what was merged, and each entry that is taken
    /// is appended to the journal on the banks, in order, and so is a fork, before anything is handed out.
    ///
    /// # Errors
    ///
    /// In this order: `Closed` where an earlier call closed the clone; `ForeignTick`; `HeldFull`; `Deep`; `GenerationsSpent` where a
    /// snapshot would be merged at the generation 2^64 - 1; `Device` where the device failed, which closes the clone: the swap and the
    /// appends that were done stand on the banks. `NoMemory` leaves it as it was, or closes it where a call of the device was done. After
    /// the others it is as it was.
    pub fn receive<R: Threads + Sync>(
        &mut self,
        _rt: &R,
        alloc: Global,
        message: &Message,
    ) -> Result<Got, ReceiveFault>
        requires { IsGoodMessage (message_value message.now) }
        ensures ok { IfOk result (λ got. LocallyReceives self.old.local message.now got self.new.local) }
        ensures good { IfOk result AnswersGood }
        ensures opened { IfOk result (StaysOpenBy self.old self.new) }
        ensures closed { (why : Why) → IsErrOf result (ReceiveFault.Closed why) ↔ (self.old.closed ≡ Some why) }
        ensures err { IfErr result (Refuses self.old.local message.now) }
        ensures spent { IsErrOf result ReceiveFault.GenerationsSpent
            ↔ (IsMessageSpent self.old message.now × ¬ IsErrOf result ReceiveFault.NoMemory) }
        ensures left { IfErr result (λ fault.
            LeavesClone B.log B.meter (IsDueMessage self.old message.now) (IsSwapDue message.now) self.old self.new
            (receive_stop fault)) }
        ensures durable { (steps : List KeptStep)
            × MessageSteps self.old.local message.now self.new.local result steps
            × Changes B.log B.meter steps self.old self.new.banks (IsOk result) (IsErrOf result ReceiveFault.Device) }
    {
        if let Some(why) = self.is_closed() {
            return Err(ReceiveFault::Closed { why });
        }
        match message {
            Message::Range(entry) => self.receive_entry(alloc, entry),
            Message::JoinAsk(id) => self.receive_ask(alloc, id),
            Message::Want(known) => self.answer_want(alloc, known),
            Message::Snapshot(snapshot) => self.receive_snapshot(alloc, snapshot),
            Message::JoinGive(_) => Ok(Got::Ignored),
        }
    }

    // Forks the leaf for who asks by an id, unless that is the clone's own.
    fn receive_ask(&mut self, alloc: Global, id: &Uuid) -> Result<Got, ReceiveFault>
        requires { self.old.closed ≡ None }
        ensures ok { IfOk result (λ got. ReceivesAsk self.old.local id.now got self.new.local) }
        ensures good { IfOk result AnswersGood }
        ensures opened { OnOk result (StaysOpen self.old self.new) }
        ensures err { IfErr result (RefusesAsk self.old.local id.now) }
        ensures left { IfErr result (StopsReceiving B.log B.meter (IsDueAsk self.old.local id.now) ⊥ self.old self.new) }
        ensures durable { (steps : List KeptStep)
            × MessageSteps self.old.local (kinds.JoinAsk id.now) self.new.local result steps
            × Changes B.log B.meter steps self.old self.new.banks (IsOk result) (IsErrOf result ReceiveFault.Device) }
    {
        if *id == self.id {
            return Ok(Got::Ignored);
        }
        if self.path().len() == PATH_LIMIT {
            return Err(ReceiveFault::Deep);
        }
        self.give(alloc, id)
    }

    // Forks the leaf, which is not too deep, for who asks by another id: it keeps the left half, and the right one is given with all that
    // the clone has. The message is made before anything changes.
    fn give(&mut self, alloc: Global, id: &Uuid) -> Result<Got, ReceiveFault>
        requires opened { self.old.closed ≡ None }
        requires due { IsDueAsk self.old.local id.now }
        ensures ok { IfOk result (λ got. ReceivesAsk self.old.local id.now got self.new.local) }
        ensures good { IfOk result AnswersGood }
        ensures opened { OnOk result (StaysOpen self.old self.new) }
        ensures err { IfErr result (λ fault.
            StopsClone B.log B.meter (IsDueAsk self.old.local id.now) ⊥ self.old self.new (receive_stop fault)) }
        ensures durable { (steps : List KeptStep)
            × MessageSteps self.old.local (kinds.JoinAsk id.now) self.new.local result steps
            × Changes B.log B.meter steps self.old self.new.banks (IsOk result) (IsErrOf result ReceiveFault.Device) }
    {
        let snapshot = self.snapshot(alloc)?;
        let given = Given::new(
            alloc,
            Give {
                id: *id,
                path: self.path().child(true),
                snapshot,
            },
        )?;
        let mut messages = Vec::with_capacity(alloc, 1)?;
        append_fork(&mut self.journal)?;
        self.leaf.give().unwrap();
        messages.push_reserved(Message::JoinGive(given));
        Ok(Got::Answer(Messages::from_vec(messages)))
    }

    // A copy of what the clone knows and has.
    pub(crate) fn snapshot(&self, alloc: Global) -> Result<Snapshot, AllocError>
        ensures copy { IfOk result (λ snapshot. snapshot_value snapshot ≡ snapshot_of self.now.local) }
        ensures local { IsLocal self.now.local }
    {
        Ok(Snapshot {
            clock: self.clock.copy_in(alloc)?,
            tagged: self.pairs.to_pairs(alloc)?,
        })
    }

    // Takes an entry, or holds it back.
    fn receive_entry(&mut self, alloc: Global, entry: &Entry) -> Result<Got, ReceiveFault>
        requires { self.old.closed ≡ None }
        ensures ok { IfOk result (λ got.
            ¬ IsForeign self.old.local entry.now × ReceivesEntry self.old.local entry.now got self.new.local) }
        ensures good { IfOk result AnswersGood }
        ensures opened { OnOk result (StaysOpen self.old self.new) }
        ensures err { IfErr result (RefusesEntry self.old.local entry.now) }
        ensures left { IfErr result
            (StopsReceiving B.log B.meter (IsDueEntry self.old.local entry.now) ⊥ self.old self.new) }
        ensures durable { (steps : List KeptStep)
            × MessageSteps self.old.local (kinds.Range entry.now) self.new.local result steps
            × Changes B.log B.meter steps self.old self.new.banks (IsOk result) (IsErrOf result ReceiveFault.Device) }
    {
        let path = self.path();
        let range = entry.range();
        let own = self.known().ticks(&path);
        let said = range.last;
        if range.path == path && own < said {
            return Err(ReceiveFault::ForeignTick { said, own });
        }
        if is_known(self.known(), entry) {
            return Ok(Got::Known);
        }
        if is_ready(self.known(), entry) {
            return self.accept(alloc, entry);
        }
        self.hold(alloc, entry)?;
        Ok(Got::Held)
    }

    // Holds an entry back.
    fn hold(&mut self, alloc: Global, entry: &Entry) -> Result<(), HeldFault>
        ensures ok { OnOk result (LocallyHolds self.old.local entry.now self.new.local) }
        ensures full { IfErr result (IsFullAt self.old.local entry.now) }
        ensures err { OnErr result (self.new ≡ self.old) }
        ensures same { self.new ≡ record self.old { local = self.new.local } }
    {
        self.held.add(alloc, entry)?;
        Ok(())
    }

    // Takes an entry that is ready, and then those held back that this releases.
    fn accept(&mut self, alloc: Global, entry: &Entry) -> Result<Got, ReceiveFault>
        requires opened { self.old.closed ≡ None }
        requires due { IsDueEntry self.old.local entry.now }
        ensures ok { IfOk result (λ got. ReceivesEntry self.old.local entry.now got self.new.local) }
        ensures good { IfOk result AnswersGood }
        ensures opened { OnOk result (StaysOpen self.old self.new) }
        ensures err { IfErr result (λ fault.
            StopsClone B.log B.meter (IsDueEntry self.old.local entry.now) ⊥ self.old self.new (receive_stop fault)) }
        ensures durable { (steps : List KeptStep)
            × MessageSteps self.old.local (kinds.Range entry.now) self.new.local result steps
            × Changes B.log B.meter steps self.old self.new.banks (IsOk result) (IsErrOf result ReceiveFault.Device) }
    {
        let plan = prepare_plan(
            alloc,
            &self.clock,
            &self.held,
            &mut self.entries,
            &mut self.pairs,
            entry,
        )?;
        append_entries(&mut self.journal, &plan.entries)?;
        self.pairs.apply(plan.cut);
        push_all(&mut self.entries, plan.entries);
        self.clock = plan.clock;
        replace_held(&mut self.held, plan.left);
        Ok(Got::Took(plan.ranges))
    }
}

impl<B: CrashBanks> MldClone<B> {
    ghost use Rattle.std.specs.Prelude.{◌≡◌};
    ghost use Rattle.mld_io.specs.Arm.{armed};

    /// Has so many calls of the banks that write or sync done, and catches the next one; the crash then leaves this much of
    /// the writes that aren't synced. It calls no device and takes no memory.
    pub fn arm(&mut self, calls: u32, leave: Leave)
        ensures log { B.log self.new.banks ≡ B.log self.old.banks }
        ensures meter { B.meter self.new.banks ≡ armed calls leave (B.meter self.old.banks) }
        ensures same { self.new ≡ record self.old { banks = self.new.banks } }
    {
        self.journal.arm(calls, leave);
    }
}

// The first entry of a range.
fn entry_in<'a>(entries: &'a [Entry], range: &Range) -> Option<&'a Entry>
    ensures { MatchOption result (LacksRange entries.now range.now) (λ entry.
        HasRange entries.now range.now entry.now) }
{
    for entry in entries {
        if entry.range() == *range {
            return Some(entry);
        }
    }
    None
}

// Puts another list in place of what is held, if there is one.
pub(crate) fn replace_held(held: &mut Held, left: Option<Held>)
    ensures { held.new ≡ left_of left held.old }
{
    if let Some(left) = left {
        *held = left;
    }
}
