//! The states of a world's clones.
ghost use Rattle.std.specs.Prelude.{◌≡◌, ◌+◌, ◌<◌, ◌≤◌, insert, length, map, slice_set, vec_len, vec_capacity, IsTrue, IfOk, MatchResult};
ghost use Rattle.text_rules.specs.Domain.{is_domain};
ghost use Rattle.mld_model.specs.StandsFor.{id_of};
ghost use Rattle.mld_model.specs.declared.CloneState.TheVariants as kinds;
ghost use Rattle.world_commands.specs.States.{IsNewAsker, HasState, IsMissingAt, reply_of_state};
ghost use Rattle.schedule_replies.specs.Replies.{reply_value};
ghost use Rattle.world_commands.specs.WorldBanks.{BankedState, in_memory};

use crash_laws::clone_core::{Asker, MldClone};
use crash_laws::journal_store::Blank;
use mld_io::Banks;
use mld_model::CloneState;
use mld_ops::copy_properties;
use rdf_terms::Iri;
use schedule_replies::Reply;
use std::alloc::{AllocError, Global};
use text_rules::Text;
use uuid::Uuid;

/// A clone of a world that runs, in its state, with its banks.
pub type RunningClone<B> = CloneState<Blank<B>, Asker<B>, B, MldClone<B>>;

/// The reply that says the state of a clone.
pub fn state_reply<B: Banks>(state: &RunningClone<B>) -> Reply<'static>
    ensures { reply_value result ≡ reply_of_state (in_memory state.now) }
{
    match state {
        CloneState::Absent(_) => Reply::Absent,
        CloneState::Asking(_) => Reply::Asking,
        CloneState::Down(_) => Reply::Down,
        CloneState::Live(_) => Reply::Live,
    }
}

/// Clone `number`, where it is live, or the reply that says its state.
pub fn live_at<'a, B: Banks>(
    clones: &'a [RunningClone<B>],
    number: u8,
) -> Result<&'a MldClone<B>, Reply<'a>>
    requires { number < length clones.now }
    ensures { MatchResult result (λ clone. HasState clones.now number (kinds.Live clone.now))
        (λ reply. IsMissingAt (map in_memory clones.now) number (reply_value reply)) }
{
    match &clones[usize::from(number)] {
        CloneState::Live(clone) => Ok(clone),
        missing => Err(state_reply(missing)),
    }
}

/// The id of a clone: the UUID whose number is the clone's.
pub fn id_of(number: u8) -> Uuid
    ensures { result ≡ id_of number }
{
    Uuid::from_u128(u128::from(number))
}

/// Clone `number` of a domain with these properties as one who asks for a leaf.
pub fn new_asker<B: Banks>(blank: Blank<B>, named: Named, number: u8) -> Asker<B>
    requires { IsTrue (is_domain named.domain) }
    ensures asker { IsNewAsker named.domain named.properties.items number result.asker }
    ensures banks { result.banks ≡ blank }
{
    Asker::new(blank, id_of(number), named.domain, named.properties)
}

/// Copies of a domain's name and its single-valued properties.
#[derive(Drop)]
pub struct Named {
    /// The name of the domain.
    pub domain: Text,
    /// The single-valued properties.
    pub properties: Vec<Iri>,
}

/// Such copies.
pub fn copy_named(alloc: Global, domain: &Text, properties: &[Iri]) -> Result<Named, AllocError>
    ensures domain { IfOk result (λ named. named.domain ≡ domain.now) }
    ensures properties { IfOk result (λ named. named.properties.items ≡ properties.now) }
{
    Ok(Named {
        domain: domain.share()?,
        properties: copy_properties(alloc, properties)?,
    })
}

/// Takes the state of clone `number` out, which has to come back (`put_state`).
pub fn take_state<B: Banks>(clones: &mut Vec<RunningClone<B>>, number: u8) -> RunningClone<B>
    requires { number < length clones.old.items }
    ensures was { HasState clones.old.items number result }
    ensures back { (state : BankedState B) → insert clones.new.items number state
        ≡ slice_set clones.old.items number state }
    ensures len { vec_len clones.new + 1 ≡ vec_len clones.old }
    ensures room { vec_len clones.new < vec_capacity clones.new }
{
    clones.remove(usize::from(number))
}

/// Puts the state of clone `number` in, for which there is room. It takes no memory.
pub fn put_state<B: Banks>(clones: &mut Vec<RunningClone<B>>, number: u8, state: RunningClone<B>)
    requires number { number ≤ vec_len clones.old }
    requires room { vec_len clones.old < vec_capacity clones.old }
    ensures { clones.new.items ≡ insert clones.old.items number state }
{
    if clones.insert(usize::from(number), state).is_err() {
        unreachable!()
    }
}
