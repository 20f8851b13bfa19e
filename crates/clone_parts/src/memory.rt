//! What a clone has in memory of what its banks keep, put in place once the banks have it. None of this can fail.
ghost use Rattle.std.specs.Prelude.{◌≡◌, ◌+◌, ◌≤◌, ◌++◌, drop, vec_len, vec_capacity};

use journal_store::Head;
use mld_ops::{Entry, PairList};
use std::collections::VecDeque;
use tree_clock::Clock;

/// Puts entries behind a journal that has room for them.
pub fn push_all(journal: &mut Vec<Entry>, entries: Vec<Entry>)
    requires { vec_len journal.old + vec_len entries ≤ vec_capacity journal.old }
    ensures { journal.new.items ≡ journal.old.items ++ entries.items }
{
    let mut rest = VecDeque::from_vec(entries);
    while let Some(entry) = rest.pop_front() {
        journal.push_reserved(entry);
    }
}

/// Drops the first of entries, so many. It takes no memory.
pub fn drop_front(entries: &mut Vec<Entry>, count: usize)
    requires { count ≤ vec_len entries.old }
    ensures { entries.new.items ≡ drop count entries.old.items }
{
    let left = entries.len() - count;
    entries.rotate_left(count);
    entries.truncate(left);
}

/// Puts what a head has in place of a base.
pub fn replace_base(base: &mut Clock, pairs: &mut PairList, head: Head)
    ensures base { base.new.ticks ≡ head.base.ticks }
    ensures pairs { pairs.new ≡ head.tagged }
{
    let Head {
        id: _,
        domain: _,
        props: _,
        path: _,
        base: clock,
        tagged,
    } = head;
    *base = clock;
    *pairs = tagged;
}
