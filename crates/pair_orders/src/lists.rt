//! Keys in four orders.
ghost use Rattle.std.specs.Prelude.{◌≡◌, ◌+◌, ◌<◌, ◌≤◌, ◌⊎◌, ◌↔◌, ◌∷◌, [], OnOk};
ghost use Rattle.tree_clock.specs.Lists.{Has, IsAscending};
ghost use Rattle.pair_orders.specs.Keys.{ranked_cmp, keys_by};
ghost use Rattle.pair_orders.specs.KeptPairs.{AreLists, AreKeysOf, lists_room, list_at, dots_in};
ghost use Rattle.pair_orders.specs.declared.keys.Key.{Key};

use crate::keys::{ByRanks, Key, RankedKey, Shape};
use chunked_list::Chunked;
use std::alloc::{AllocError, Global};

/// The same keys in each order: by dot, by subject, by predicate, by object.
#[derive(Drop)]
pub(crate) struct Lists {
    pub(crate) keys: [Chunked<RankedKey>; 4],
}

/// No keys.
pub(crate) fn no_lists(alloc: Global) -> Lists
    ensures is { AreLists result }
    ensures none { dots_in result ≡ [] }
{
    Lists {
        keys: [
            Chunked::new(alloc),
            Chunked::new(alloc),
            Chunked::new(alloc),
            Chunked::new(alloc),
        ],
    }
}

/// Lists of the same keys.
pub(crate) fn lists_of(
    dot: Chunked<RankedKey>,
    subject: Chunked<RankedKey>,
    predicate: Chunked<RankedKey>,
    object: Chunked<RankedKey>,
) -> Lists
    ensures { result.keys ≡ dot ∷ subject ∷ predicate ∷ object ∷ [] }
{
    Lists {
        keys: [dot, subject, predicate, object],
    }
}

/// The keys by dot.
pub(crate) fn by_dot(lists: &Lists) -> &Chunked<RankedKey>
    requires { AreLists lists.now }
    ensures { result.now ≡ list_at lists.now 0 }
{
    &lists.keys[0]
}

/// The keys in an order.
pub(crate) fn keys_in(lists: &Lists, shape: Shape) -> &Chunked<RankedKey>
    requires { AreLists lists.now }
    ensures { AreKeysOf shape result.now.elements (dots_in lists.now) }
{
    match shape {
        Shape::Dot => &lists.keys[0],
        Shape::Subject => &lists.keys[1],
        Shape::Predicate => &lists.keys[2],
        Shape::Object => &lists.keys[3],
    }
}

/// Makes room for so many keys more.
pub(crate) fn make_room(alloc: Global, lists: &mut Lists, more: usize) -> Result<(), AllocError>
    requires { AreLists lists.old }
    ensures is { AreLists lists.new }
    ensures dots { dots_in lists.new ≡ dots_in lists.old }
    ensures ok { OnOk result (more ≤ lists_room lists.new) }
    ensures kept { lists_room lists.old ≤ lists_room lists.new }
{
    lists.keys[0].prepare(alloc, more)?;
    lists.keys[1].prepare(alloc, more)?;
    lists.keys[2].prepare(alloc, more)?;
    lists.keys[3].prepare(alloc, more)?;
    Ok(())
}

/// Puts a key into each order. It takes no memory.
pub(crate) fn put_key(lists: &mut Lists, key: Key)
    requires is { AreLists lists.old }
    requires room { 0 < lists_room lists.old }
    ensures is { AreLists lists.new }
    ensures members { (other : Key) → Has (dots_in lists.new) other ↔ (Has (dots_in lists.old) other ⊎ (other ≡ key)) }
    ensures room { lists_room lists.old ≤ lists_room lists.new + 1 }
{
    put_ranked(&mut lists.keys[0], Shape::Dot, &key);
    put_ranked(&mut lists.keys[1], Shape::Subject, &key);
    put_ranked(&mut lists.keys[2], Shape::Predicate, &key);
    put_ranked(&mut lists.keys[3], Shape::Object, &key);
}

// Puts a key into the list of an order. It takes no memory.
fn put_ranked(list: &mut Chunked<RankedKey>, shape: Shape, key: &Key)
    requires room { 0 < list.old.room }
    requires order { IsAscending ranked_cmp list.old.elements }
    ensures ascending { IsAscending ranked_cmp list.new.elements }
    ensures members { (other : Key) → Has (keys_by shape list.new.elements) other
        ↔ (Has (keys_by shape list.old.elements) other ⊎ (other ≡ key.now)) }
    ensures room { list.old.room ≤ list.new.room + 1 }
{
    list.insert(&ByRanks, key.ranked(shape));
}

/// Takes a key out of each order. It takes no memory.
pub(crate) fn take_key(lists: &mut Lists, key: &Key)
    requires is { AreLists lists.old }
    ensures is { AreLists lists.new }
    ensures members { (other : Key) → Has (dots_in lists.new) other ↔ (Has (dots_in lists.old) other × ¬ (other ≡ key.now)) }
    ensures room { lists_room lists.old ≤ lists_room lists.new }
{
    take_ranked(&mut lists.keys[0], Shape::Dot, key);
    take_ranked(&mut lists.keys[1], Shape::Subject, key);
    take_ranked(&mut lists.keys[2], Shape::Predicate, key);
    take_ranked(&mut lists.keys[3], Shape::Object, key);
}

// Takes a key out of the list of an order. It takes no memory.
fn take_ranked(list: &mut Chunked<RankedKey>, shape: Shape, key: &Key)
    requires { IsAscending ranked_cmp list.old.elements }
    ensures ascending { IsAscending ranked_cmp list.new.elements }
    ensures members { (other : Key) → Has (keys_by shape list.new.elements) other
        ↔ (Has (keys_by shape list.old.elements) other × ¬ (other ≡ key.now)) }
    ensures room { list.old.room ≤ list.new.room }
{
    list.remove(&ByRanks, &key.ranked(shape));
}
