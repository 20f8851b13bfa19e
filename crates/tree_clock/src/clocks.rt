//! Clocks: finite maps from paths to ticks.
ghost use Rattle.std.specs.Prelude.{◌≡◌, ◌≢◌, ℕ, ◌<◌, ◌≤◌, ◌↔◌, [], List, Some, length, max, IsTrue, IfOk, OnOk, OnErr, IsOk, MatchBool};
ghost use Rattle.tree_clock.specs.Clock.{ticks_of, Covers, IsClock, HasRoom, RaisesTo, own_dot};
ghost use Rattle.tree_clock.specs.declared.dots.Dot.{Dot};

use crate::dots::Dot;
use crate::paths::Path;
use crate::trees::Tree;
use std::alloc::{AllocError, Global};
use std::marker::Model;

/// A clock. It stands for the dots of each of its paths from tick 1 to the path's ticks. One of its paths may be its own one.
#[derive(Drop)]
pub struct Clock {
    root: Tree,
    alloc: Global,
}

impl Model for Clock {
    ghost use Rattle.std.specs.Prelude.{◌≤◌};
    ghost use Rattle.tree_clock.specs.Clock.{ClockValue};
    ghost use Rattle.tree_clock.specs.Limits.{path_limit};
    ghost use Rattle.tree_clock.specs.Trees.{listed, nodes, own_of, height};

    ghost Value = { ClockValue };

    ghost view = { λ clock. record { ticks = listed clock.root; room = nodes clock.root; own = own_of clock.root } };

    ghost invariant = { λ clock. height clock.root ≤ path_limit };
}

impl Clock {
    /// The clock with no path.
    pub fn empty(alloc: Global) -> Clock
        ensures { result.ticks ≡ [] }
    {
        Clock {
            root: Tree::fresh(),
            alloc,
        }
    }

    /// The ticks of a path, 0 where the clock lacks it.
    pub fn ticks(&self, path: &Path) -> u32
        ensures value { result ≡ ticks_of self.now.ticks path.now }
        ensures known { 1 ≤ ticks_of self.now.ticks path.now → HasRoom self.now path.now }
        ensures clock { IsClock self.now.ticks }
    {
        self.root.ticks(path, 0)
    }

    /// Whether the dot is one of the clock's.
    pub fn covers(&self, dot: &Dot) -> bool
        ensures { IsTrue result ↔ Covers self.now.ticks dot.now }
    {
        1 <= dot.tick && dot.tick <= self.ticks(&dot.path)
    }

    /// Whether each dot of this clock is one of the other's.
    pub fn leq(&self, other: &Clock) -> bool
        ensures dots { IsTrue result
            ↔ ((dot : Dot) → Covers self.now.ticks dot → Covers other.now.ticks dot) }

        // No path has more ticks here than there, or some path has.
        ensures paths { MatchBool result
            ((path : List ℕ) → ticks_of self.now.ticks path ≤ ticks_of other.now.ticks path)
            ((path : List ℕ) × (ticks_of other.now.ticks path < ticks_of self.now.ticks path)) }
    {
        let empty = Tree::fresh();
        self.root.leq(&other.root, &empty)
    }

    /// Whether each dot of this clock at another path than this one is one of the other's.
    pub fn leq_elsewhere(&self, other: &Clock, path: &Path) -> bool
        ensures { IsTrue result
            ↔ ((dot : Dot) → dot.path ≢ path.now → Covers self.now.ticks dot → Covers other.now.ticks dot) }
    {
        let empty = Tree::fresh();
        self.root.leq_elsewhere(&other.root, &empty, path, 0)
    }

    /// Makes room for the ticks of a path, so that `raise` may be called.
    pub fn reserve(&mut self, path: &Path) -> Result<(), AllocError>
        ensures ticks { self.new.ticks ≡ self.old.ticks }
        ensures ok { OnOk result (HasRoom self.new path.now) }
        ensures succeeds { HasRoom self.old path.now → IsOk result }
        ensures keeps { (other : List ℕ) → HasRoom self.old other → HasRoom self.new other }
    {
        self.root.reserve(path, 0, self.alloc)
    }

    /// Raises the ticks of the dot's path to its tick, where they are fewer. It takes no memory.
    pub fn raise(&mut self, dot: &Dot)
        requires { HasRoom self.old dot.now.path }
        ensures raised { RaisesTo self.old.ticks self.new.ticks dot.now }
        ensures clock { IsClock self.new.ticks }
        ensures keeps { (other : List ℕ) → HasRoom self.old other → HasRoom self.new other }
    {
        self.root.raise(&dot.path, 0, dot.tick);
    }

    /// Takes in the dots of another clock.
    pub fn merge(&mut self, other: &Clock) -> Result<(), AllocError>
        ensures ok { OnOk result ((path : List ℕ) → ticks_of self.new.ticks path
            ≡ max (ticks_of self.old.ticks path) (ticks_of other.now.ticks path)) }
        ensures err { OnErr result (self.new.ticks ≡ self.old.ticks) }
        ensures clock { IsClock self.new.ticks }
        ensures keeps { (path : List ℕ) → HasRoom self.old path → HasRoom self.new path }
    {
        other.root.reserve_in(&mut self.root, self.alloc)?;
        other.root.raise_in(&mut self.root);
        Ok(())
    }

    /// Makes a path, for whose ticks there is room, the own one. It takes no memory.
    pub fn set_own(&mut self, path: &Path)
        requires { HasRoom self.old path.now }
        ensures own { self.new.own ≡ Some path.now }
        ensures ticks { self.new.ticks ≡ self.old.ticks }
        ensures room { self.new.room ≡ self.old.room }
    {
        self.root.set_own(path, 0);
    }

    /// The own path with its ticks, if there is an own path.
    pub fn own(&self) -> Option<Dot>
        ensures { result ≡ own_dot self.now }
    {
        self.root.own_dot(Path::root())
    }

    /// Whether fewer paths than so many have ticks. Takes no memory.
    pub fn has_fewer_than(&self, count: usize) -> bool
        ensures { IsTrue result ↔ (length self.now.ticks < count) }
    {
        self.root.count() < count
    }

    /// The paths with their ticks, by path.
    pub fn to_list(&self, alloc: Global) -> Result<Vec<(Path, u32)>, AllocError>
        ensures ok { IfOk result (λ list. list.items ≡ self.now.ticks) }
        ensures clock { IsClock self.now.ticks }
    {
        let mut list = Vec::new(alloc);
        self.root.append_to(Path::root(), &mut list)?;
        Ok(list)
    }

    /// A copy.
    pub fn copy_in(&self, alloc: Global) -> Result<Clock, AllocError>
        ensures ok { IfOk result (λ copy. copy.ticks ≡ self.now.ticks) }
        ensures room { IfOk result (λ copy. copy.room ≡ self.now.room) }
        ensures own { IfOk result (λ copy. copy.own ≡ self.now.own) }
        ensures clock { IsClock self.now.ticks }
    {
        Ok(Clock {
            root: self.root.copy_in(alloc)?,
            alloc,
        })
    }
}
