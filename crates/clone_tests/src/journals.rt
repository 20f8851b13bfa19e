//! A side, and the head and the entry that it has.
ghost use Rattle.std.specs.Prelude.{IfOk};
ghost use Rattle.mld_ops.specs.Ready.{IsReadyEntry};
ghost use Rattle.op_codec.specs.Stored.{IsShortEntry};
ghost use Rattle.journal_sides.specs.Heads.{head_value};
ghost use Rattle.journal_sides.specs.StoredVolumes.{IsGoodHead};

use crate::made::domain;
use causal_buffer::is_ready;
use journal_store::Head;
use mld_ops::{Entry, PairList};
use op_codec::{is_short_entry, read_entry};
use std::alloc::Global;
use std::test::Fail;
use tree_clock::{Clock, Path};
use uuid::Uuid;

/// A side with a head of generation 1, id 0 and domain `d`, and the entry of one insert.
pub const SIDE: &[u8] = b"\x01mld1\x00\x00\x00\x00\x00\x00\x00\x01\
    \x00\x00\x00\x00\x00\x00\x00\x00\x00\x00\x00\x00\x00\x00\x00\x00\
    \x00\x00\x00\x01d\x00\x00\x00\x00\x00\x00\x00\x00\x00\x00\x00\x00\x00\
    \x01\x01\x00\x00\x00\x00\x01\x00\x00\x00\x01\x00\x00\x00\x01\x00\x00\x00\x00\x01\
    \x00\x00\x00\x00\x00\x00\x00\x01\x00\x00\x00\x20\
    <http://d/a> <http://d/#p> \"x\" .\x00\x00\x00\x01\x00";

/// Where its entry begins.
const ENTRY_PLACE: usize = 49;

/// The head.
pub fn first_head(alloc: Global) -> Result<Box<Head>, Fail>
    ensures { IfOk result (λ head. IsGoodHead (head_value head.value)) }
{
    let head = Head {
        id: Uuid::from_u128(0),
        domain: domain(alloc)?,
        props: Vec::new(alloc),
        path: Path::root(),
        base: Clock::empty(alloc),
        tagged: PairList::new(alloc),
    };
    Ok(Box::new(alloc, head)?)
}

/// The entry, ready where the head's base is known.
pub fn first_entry(alloc: Global, head: &Head) -> Result<Box<Entry>, Fail>
    ensures ready { IfOk result (λ entry. IsReadyEntry (head_value head.now).base.ticks entry.value) }
    ensures short { IfOk result (λ entry. IsShortEntry entry.value) }
{
    let (entry, _next) = read_entry(alloc, SIDE, ENTRY_PLACE)?;
    if !is_short_entry(&entry) {
        return Err("a long entry".into());
    }
    if !is_ready(&head.base, &entry) {
        return Err("no ready entry".into());
    }
    Ok(Box::new(alloc, entry)?)
}
