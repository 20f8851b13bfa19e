//! One who asks becomes a clone by a leaf that is given to it, with ticks that a schedule never comes to; and does not where its device
//! fails.
ghost use Rattle.std.specs.Prelude.{IfOk};
ghost use Rattle.mld_ops.specs.Messages.{message_value, IsGoodMessage};

use crate::made::{TestAsker, TestClone, Word, are_given, asker, clock, parts, set};
use clone_core::Adopted;
use disk_model::MemoryBanks;
use journal_store::MakeFault;
use mld_io::Leave;
use mld_ops::{Give, Given, Message, PairList, Snapshot};
use std::alloc::Global;
use std::test::Fail;
use std::thread::Threads;
use tree_clock::Path;
use uuid::Uuid;

/// Whether this is the one of the id 2, who asks by it.
fn is_second(asker: &TestAsker) -> bool {
    let message = asker.ask();
    matches!(&message, Message::JoinAsk(id) if *id == asker.id())
        && asker.id() == Uuid::from_u128(2)
        && asker.domain() == "d"
        && are_given(asker.properties())
}

/// A message that gives the root to the id 2, where all ticks of it but the last are known and no pair is there.
fn given(alloc: Global) -> Result<Box<Message>, Fail>
    ensures { IfOk result (λ given. IsGoodMessage (message_value given.value)) }
{
    let path = Path::root();
    let give = Give {
        id: Uuid::from_u128(2),
        path,
        snapshot: Snapshot {
            clock: clock(alloc, &path, 4_294_967_294)?,
            tagged: PairList::new(alloc),
        },
    };
    let given = Given::new(alloc, give)?;
    Ok(Box::new(alloc, Message::JoinGive(given))?)
}

/// What one who asks becomes by a message.
fn adopted<R: Threads + Sync>(
    asker: Box<TestAsker>,
    rt: &R,
    alloc: Global,
    message: &Message,
) -> Result<Box<Adopted<MemoryBanks>>, Fail>
    requires { IsGoodMessage (message_value message.now) }
{
    let adopted = Box::into_inner(asker).receive(rt, alloc, message);
    Ok(Box::new(alloc, adopted)?)
}

/// Whether the clone with that base uses the last tick, and none behind it.
fn uses_the_last_tick(clone: &mut TestClone, alloc: Global) -> bool {
    clone.base().ticks(&Path::root()) == 4_294_967_294
        && set(clone, alloc, true) == Word::Made(4_294_967_295)
        && parts(clone) == (1, 0, 1, 4_294_967_295)
        && set(clone, alloc, false) == Word::SetSpent
        && parts(clone) == (1, 0, 1, 4_294_967_295)
}

/// Whether it joined, and uses the last tick.
fn joined_to_the_last_tick(adopted: &mut Adopted<MemoryBanks>, alloc: Global) -> bool {
    match adopted {
        Adopted::Joined(clone) => uses_the_last_tick(clone, alloc),
        Adopted::Refused(_, _) | Adopted::Ignored(_) => false,
    }
}

#[test]
fn a_clone_that_joined_uses_the_last_tick(rt: HostRuntime) -> Result<(), Fail> {
    let given = given(rt.alloc())?;
    let asker = asker(&rt, rt.alloc())?;
    assert!(rt; is_second(&asker));
    let mut adopted = adopted(asker, &rt, rt.alloc(), &given)?;
    assert!(rt; joined_to_the_last_tick(&mut adopted, rt.alloc()));
    Ok(())
}

/// Whether it became no clone since its device failed.
fn is_refused(adopted: &Adopted<MemoryBanks>) -> bool {
    matches!(adopted, Adopted::Refused(MakeFault::Device, _))
}

#[test]
fn who_asks_becomes_no_clone_where_its_device_fails(rt: HostRuntime) -> Result<(), Fail> {
    let given = given(rt.alloc())?;
    let mut asker = asker(&rt, rt.alloc())?;
    asker.arm(0, Leave::Lose);
    let adopted = adopted(asker, &rt, rt.alloc(), &given)?;
    assert!(rt; is_refused(&adopted));
    Ok(())
}
