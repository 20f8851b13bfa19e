//! Who asks for a leaf, to become a clone.
use crate::clones::MldClone;
use clone_parts::{begun_with, create};
use journal_store::{Blank, Head, MakeFault};
use mld_io::{Banks, CrashBanks, Leave};
use mld_ops::{Give, Message, kept_properties};
use rdf_terms::Iri;
use std::alloc::Global;
use std::marker::Model;
use std::thread::Threads;
use text_rules::Text;
use tree_clock::Leaf;
use uuid::Uuid;

/// Who asks for a leaf: its id, domain and single-valued properties, and its banks, which keep nothing yet. It can't be copied: it
/// becomes one clone at most.
#[derive(Drop)]
pub struct Asker<B: Banks> {
    blank: Blank<B>,
    id: Uuid,
    domain: Text,
    properties: Vec<Iri>,
}

impl<B: Banks> Model for Asker<B> {
    ghost use Rattle.mld_model.specs.Local.{IsNamed};
    ghost use Rattle.clone_core.specs.Banked.{BankedAsker};

    ghost Value = { BankedAsker B };

    ghost view = { λ asker. record {
      asker = record { id = asker.id; domain = asker.domain; properties = asker.properties.items };
      banks = asker.blank;
    } };

    ghost invariant = { λ asker. IsNamed asker.domain asker.properties.items };
}

/// What became of a message that came to who asks.
#[derive(Drop)]
pub enum Adopted<B: Banks> {
    /// The message gave a leaf: the clone lives at it.
    Joined(MldClone<B>),
    /// The message gives this one no leaf.
    Ignored(Asker<B>),
    /// The message gave a leaf, but no clone could be made. The banks are given back.
    Refused(MakeFault, B),
}

impl<B: Banks> Asker<B> {
    ghost use Rattle.std.specs.Prelude.{◌≡◌, IsTrue, MatchOption};
    ghost use Rattle.mld_io.specs.Arm.{Metered};
    ghost use Rattle.text_rules.specs.Domain.{is_domain};
    ghost use Rattle.journal_store.specs.Standing.{IsBlankLog};
    ghost use Rattle.rdf_terms.specs.Order.{iri_cmp};
    ghost use Rattle.tree_clock.specs.Lists.{IsAscending};
    ghost use Rattle.mld_ops.specs.declared.messages.Message.TheVariants as message;
    ghost use Rattle.mld_ops.specs.Messages.{snapshot_value, message_value, IsGoodSnapshot, IsGoodMessage};
    ghost use Rattle.mld_ops.specs.Properties.{AreKept};
    ghost use Rattle.mld_ops.specs.Messages.{give_value};
    ghost use Rattle.mld_ops.specs.declared.messages.Give.{Give};
    ghost use Rattle.mld_model.specs.Local.{joined_clone};
    ghost use Rattle.clone_core.specs.Banked.{head_of};
    ghost use Rattle.clone_core.specs.DurableCalls.{Creates};
    ghost use Rattle.clone_core.specs.Joining.{IsGiveFor, GivesNone, LocallyAdopts, TakesGive, banks_of_adopted, adopting_calls, FailsToAdopt, AdoptsWhole, GivesBackAdopted};

    /// One who asks, who keeps these properties in order. It calls no device and takes no memory.
    pub fn new(blank: Blank<B>, id: Uuid, domain: Text, properties: Vec<Iri>) -> Asker<B>
        requires { IsTrue (is_domain domain) }
        ensures id { result.asker.id ≡ id }
        ensures domain { result.asker.domain ≡ domain }
        ensures kept { AreKept properties.items result.asker.properties }
        ensures banks { result.banks ≡ blank }
    {
        Asker {
            blank,
            id,
            domain,
            properties: kept_properties(properties),
        }
    }

    /// Its id.
    pub fn id(&self) -> Uuid
        ensures { result ≡ self.now.asker.id }
    {
        self.id
    }

    /// Its domain.
    pub fn domain(&self) -> &str
        ensures domain { result.now ≡ self.now.asker.domain }
        ensures name { IsTrue (is_domain self.now.asker.domain) }
    {
        self.domain.as_str()
    }

    /// The properties that have one value at most for each subject, ascending as terms.
    pub fn properties(&self) -> &[Iri]
        ensures properties { result.now ≡ self.now.asker.properties }
        ensures ascending { IsAscending iri_cmp self.now.asker.properties }
    {
        self.properties.as_slice()
    }

    /// The question for a leaf.
    pub fn ask(&self) -> Message
        ensures asks { result ≡ message.JoinAsk self.now.asker.id }
        ensures good { IsGoodMessage (message_value result) }
    {
        Message::JoinAsk(self.id)
    }

    /// Its banks, which keep nothing. It takes no memory.
    pub fn stop(self) -> B
        ensures banks { result ≡ self.banks }
        ensures blank { IsBlankLog (B.log result) }
    {
        self.blank.into_banks()
    }

    /// Becomes a clone by a message that gives it a leaf: its base is what the giver had, and its banks keep it from then on, by one
    /// create. Other messages are ignored.
    pub fn receive<R: Threads + Sync>(self, _rt: &R, alloc: Global, message: &Message) -> Adopted<B>
        requires { IsGoodMessage (message_value message.now) }
        ensures adopts { LocallyAdopts self message.now result }
        ensures durable { (give : Give) → IsGiveFor self.asker message.now give
            → Creates B.log B.meter (head_of (joined_clone self.asker (give_value give))) self.banks
            (banks_of_adopted result) (AdoptsWhole result) (FailsToAdopt result) }
        ensures back { GivesBackAdopted B.log B.meter self.banks result }
        ensures meter { Metered (adopting_calls result) (B.meter self.banks) (B.meter (banks_of_adopted result))
            (AdoptsWhole result) (FailsToAdopt result) }
    {
        match self.given(message) {
            Some(give) => self.adopt(alloc, give),
            None => Adopted::Ignored(self),
        }
    }

    // Becomes a clone at the leaf that is given, with a snapshot that may be taken.
    fn adopt(self, alloc: Global, give: &Give) -> Adopted<B>
        requires { IsGoodSnapshot (snapshot_value give.now.snapshot) }
        ensures adopts { TakesGive self give.now result }
        ensures durable { Creates B.log B.meter (head_of (joined_clone self.asker (give_value give.now))) self.banks
            (banks_of_adopted result) (AdoptsWhole result) (FailsToAdopt result) }
        ensures back { GivesBackAdopted B.log B.meter self.banks result }
    {
        let Ok((base, clock, pairs)) = begun_with(alloc, &give.snapshot) else {
            return Adopted::Refused(MakeFault::NoMemory, self.stop());
        };
        let Asker {
            blank,
            id,
            domain,
            properties,
        } = self;
        let head = Head {
            id,
            domain,
            props: properties,
            path: give.path,
            base: base.clock,
            tagged: base.tagged,
        };
        match create(alloc, blank, &head) {
            Ok(journal) => {
                let leaf = Leaf::at(give.path);
                Adopted::Joined(MldClone::beginning(alloc, head, leaf, clock, pairs, journal))
            }
            Err((fault, banks)) => Adopted::Refused(fault, banks),
        }
    }

    // The leaf that the message gives to this one, with its snapshot.
    fn given<'a>(&self, message: &'a Message) -> Option<&'a Give>
        ensures { MatchOption result (GivesNone self.now.asker message.now) (λ give.
            IsGiveFor self.now.asker message.now give.now) }
    {
        let Message::JoinGive(given) = message else {
            return None;
        };
        let give = given.give();
        if give.id != self.id {
            return None;
        }
        Some(give)
    }
}

impl<B: CrashBanks> Asker<B> {
    ghost use Rattle.std.specs.Prelude.{◌≡◌};
    ghost use Rattle.mld_io.specs.Arm.{armed};

    /// Has so many calls of the banks that write or sync done, and catches the next one; the crash then leaves this much of
    /// the writes that aren't synced. It calls no device and takes no memory.
    pub fn arm(&mut self, calls: u32, leave: Leave)
        ensures log { B.log self.new.banks ≡ B.log self.old.banks }
        ensures meter { B.meter self.new.banks ≡ armed calls leave (B.meter self.old.banks) }
        ensures same { self.new ≡ record self.old { banks = self.new.banks } }
    {
        self.blank.arm(calls, leave);
    }
}
