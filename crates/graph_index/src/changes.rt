//! Changes of ascending lists of pairs.
ghost use Rattle.std.specs.Prelude.{◌≡◌, ◌≤◌, ◌⊎◌, ◌↔◌, vec_len};
ghost use Rattle.mld_ops.specs.Tagged.{tagged_cmp};
ghost use Rattle.mld_ops.specs.declared.tagged.Tagged.{Tagged};
ghost use Rattle.tree_clock.specs.Lists.{Has, IsAscending};

use crate::pair_order::PairOrder;
use mld_ops::Tagged;
use pair_orders::chunked_list::{Chunked, Keyed, Order};

/// Takes out those of the pairs that are there.
pub(crate) fn remove_all(pairs: &mut Chunked<Tagged>, drops: &[Tagged])
    requires { IsAscending tagged_cmp pairs.old.elements }
    ensures ascending { IsAscending tagged_cmp pairs.new.elements }
    ensures members { (pair : Tagged) → Has pairs.new.elements pair
        ↔ (Has pairs.old.elements pair × ¬ Has drops.now pair) }
    ensures room { pairs.old.room ≤ pairs.new.room }
{
    for drop in drops {
        pairs.remove(&PairOrder, drop);
    }
}

/// Puts in those that aren't there. None is left to come.
pub(crate) fn add_all<T: Keyed + Drop, O: Order<T>>(
    order: &O,
    list: &mut Chunked<T>,
    adds: &mut Vec<T>,
)
    requires room { vec_len adds.old ≤ list.old.room }
    requires ascending { IsAscending (O.order order.now) list.old.elements }
    ensures ascending { IsAscending (O.order order.now) list.new.elements }
    ensures members { (element : T) → Has list.new.elements element
        ↔ (Has list.old.elements element ⊎ Has adds.old.items element) }
    ensures none { vec_len adds.new ≡ 0 }
{
    while let Some(element) = adds.pop() {
        list.insert(order, element);
    }
}
