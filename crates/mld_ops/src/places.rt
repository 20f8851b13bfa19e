//! Places in an ascending list of pairs that is gone over beside other pairs.
ghost use Rattle.std.specs.Prelude.{◌≡◌, ◌<◌, ◌≤◌, ◌↔◌, IsTrue, length, slice_index_or};
ghost use Rattle.std.specs.declared.cmp.Ordering.TheVariants.{Less};
ghost use Rattle.mld_ops.specs.AscendingPlaces.{AreBelow};
ghost use Rattle.mld_ops.specs.Tagged.{tagged_cmp};
ghost use Rattle.tree_clock.specs.Lists.{Has, IsAscending};

use crate::tagged::Tagged;

/// The first place from a given one on whose pair isn't below a pair, where all before that place are.
pub fn skip_below(others: &[Tagged], place: usize, pair: &Tagged) -> usize
    requires place { place ≤ length others.now }
    requires below { AreBelow others.now place pair.now }
    ensures place { result ≤ length others.now }
    ensures below { AreBelow others.now result pair.now }
    ensures stops { result < length others.now
        → ¬ (tagged_cmp (slice_index_or others.now result pair.now) pair.now ≡ Less) }
{
    let mut place = place;
    while place < others.len() && others[place].cmp(pair).is_lt() {
        place += 1;
    }
    place
}

/// Whether the pair is the one at a place before which all are below it, and which isn't below it.
pub fn stands_at(others: &[Tagged], place: usize, pair: &Tagged) -> bool
    requires others { IsAscending tagged_cmp others.now }
    requires below { AreBelow others.now place pair.now }
    requires stops { place < length others.now
        → ¬ (tagged_cmp (slice_index_or others.now place pair.now) pair.now ≡ Less) }
    ensures { IsTrue result ↔ Has others.now pair.now }
{
    place < others.len() && others[place].cmp(pair).is_eq()
}
