//! Two ascending lists of pairs joined, by one walk over both side by side.
ghost use Rattle.std.specs.Prelude.{◌≡◌, ◌<◌, ◌+◌, [], IfOk, IfSome, IfNone, length};
ghost use Rattle.suset.specs.StateJoin.{IsJoined};
ghost use Rattle.mld_ops.specs.Tagged.{tagged_cmp};
ghost use Rattle.suset.specs.Walks.{IsJoinStep};
ghost use Rattle.tree_clock.specs.Lists.{IsAscending};

use mld_ops::Tagged;
use std::alloc::{AllocError, Global};
use std::cmp::Ordering;
use tree_clock::Clock;

// The least pair of two lists, whether it stays in their join, and what is left of both behind it.
#[derive(Clone, Copy)]
struct Step<'a> {
    pair: &'a Tagged,
    stays: bool,
    mine: &'a [Tagged],
    other: &'a [Tagged],
}

/// The pairs of both lists, and those of one whose dot the other's clock doesn't cover.
pub(crate) fn joined(
    alloc: Global,
    own: &Clock,
    mine: &[Tagged],
    other: &[Tagged],
    theirs: &Clock,
) -> Result<Vec<Tagged>, AllocError>
    requires mine { IsAscending tagged_cmp mine.now }
    requires other { IsAscending tagged_cmp other.now }
    ensures { IfOk result (λ new. IsJoined own.now.ticks mine.now other.now theirs.now.ticks new.items) }
{
    let mut new = Vec::new(alloc);
    let mut mine = mine;
    let mut other = other;
    while let Some(step) = next_step(own, mine, other, theirs) {
        if step.stays {
            new.push(step.pair.share()?)?;
        }
        mine = step.mine;
        other = step.other;
    }
    Ok(new)
}

// The next step of the walk, or none where both lists have ended.
fn next_step<'a>(
    own: &Clock,
    mine: &'a [Tagged],
    other: &'a [Tagged],
    theirs: &Clock,
) -> Option<Step<'a>>
    requires mine { IsAscending tagged_cmp mine.now }
    requires other { IsAscending tagged_cmp other.now }
    ensures some { IfSome result
        (λ step. IsJoinStep own.now.ticks mine.now other.now theirs.now.ticks step.pair.now step.stays step.mine.now
        step.other.now) }
    ensures none { IfNone result ((mine.now ≡ []) × (other.now ≡ [])) }
    ensures fewer { IfSome result
        (λ step. length step.mine.now + length step.other.now < length mine.now + length other.now) }
{
    match (mine.split_first(), other.split_first()) {
        (Some((pair, more)), Some((found, rest))) => Some(match pair.cmp(found) {
            Ordering::Less => Step {
                pair,
                stays: !theirs.covers(&pair.dot),
                mine: more,
                other,
            },
            Ordering::Greater => Step {
                pair: found,
                stays: !own.covers(&found.dot),
                mine,
                other: rest,
            },
            Ordering::Equal => Step {
                pair,
                stays: true,
                mine: more,
                other: rest,
            },
        }),
        (Some((pair, more)), None) => Some(Step {
            pair,
            stays: !theirs.covers(&pair.dot),
            mine: more,
            other,
        }),
        (None, Some((found, rest))) => Some(Step {
            pair: found,
            stays: !own.covers(&found.dot),
            mine,
            other: rest,
        }),
        (None, None) => None,
    }
}
