//! Trees of ticks: each node has the ticks of one path, and at most two sons. A son that is absent takes no memory.
ghost use Rattle.std.specs.Prelude.{◌≡◌, ◌≢◌, ℕ, ◌+◌, ◌-◌, ◌≤◌, ◌++◌, ◌∷◌, ◌^◌, [], List, Option, Some, None, drop, length, max, min, suc, IfOk, OnOk, IsOk, IsTrue, ◌↔◌, MatchBool, if◌then◌else◌};
ghost use Rattle.std.specs.Option.{option_map};
ghost use Rattle.tree_clock.specs.Limits.{path_limit};
ghost use Rattle.tree_clock.specs.Path.{zero_letter, one_letter};
ghost use Rattle.tree_clock.specs.Trees.{ticks_at, HasNode, IsEmpty, height, under, entry_of, listed, nodes, own_of, IsFresh, IsTreeWithin, Exceeds, IsWithinBut, ExceedsBut, Grows, HasNodesOf, HasNodesBelow, node_at, raised_node, RaisesNode, RaisesBelow};

use crate::dots::Dot;
use crate::paths::Path;
use std::alloc::{AllocError, Global};
use std::mem;

/// Where the own path of a clock goes on from a node, if it leads there. At other nodes it tells nothing.
#[derive(Clone, Copy)]
pub enum Way {
    /// Nowhere: there is no own path.
    Away,
    /// It ends here.
    Here,
    /// To the son at the letter `0`.
    Zero,
    /// To the son at the letter `1`.
    One,
}

/// A node: where the own path goes on, its ticks, and the sons that it has.
#[derive(Drop)]
pub enum Tree {
    /// A node with no son.
    Leaf(Way, u32),
    /// A node with a son at the letter `0` alone.
    Left(Way, u32, Box<Tree>),
    /// A node with a son at the letter `1` alone.
    Right(Way, u32, Box<Tree>),
    /// A node with its sons at the letters `0` and `1`.
    Fork(Way, u32, Box<Tree>, Box<Tree>),
}

impl Tree {
    /// A node with no ticks, no son, and no own path.
    pub fn fresh() -> Tree
        ensures { IsFresh result }
    {
        Tree::Leaf(Way::Away, 0)
    }

    // The ticks of the node itself.
    fn own(&self) -> u32
        ensures { result ≡ ticks_at self.now [] }
    {
        match self {
            Tree::Leaf(_, ticks) => *ticks,
            Tree::Left(_, ticks, _) => *ticks,
            Tree::Right(_, ticks, _) => *ticks,
            Tree::Fork(_, ticks, _, _) => *ticks,
        }
    }

    // The son at a letter, or the empty tree where there is none.
    fn son<'a>(&'a self, one: bool, empty: &'a Tree) -> &'a Tree
        requires { IsEmpty empty.now }
        ensures { (path : List ℕ) → ticks_at result.now path
            ≡ ticks_at self.now ((if one then one_letter else zero_letter) ∷ path) }
    {
        match self {
            Tree::Leaf(_, _) => empty,
            Tree::Left(_, _, left) => { if one { empty } else { left } }
            Tree::Right(_, _, right) => { if one { right } else { empty } }
            Tree::Fork(_, _, left, right) => { if one { right } else { left } }
        }
    }

    /// The ticks of the path whose letters from `depth` on lead down from this node, 0 where there is no such node.
    pub fn ticks(&self, path: &Path, depth: u8) -> u32
        requires { depth ≤ length path.now }
        ensures { result ≡ ticks_at self.now (drop depth path.now) }
    {
        if depth == path.len() {
            return self.own();
        }
        if path.letter(depth) {
            match self {
                Tree::Right(_, _, one) => one.ticks(path, depth + 1),
                Tree::Fork(_, _, _, one) => one.ticks(path, depth + 1),
                _ => 0,
            }
        } else {
            match self {
                Tree::Left(_, _, zero) => zero.ticks(path, depth + 1),
                Tree::Fork(_, _, zero, _) => zero.ticks(path, depth + 1),
                _ => 0,
            }
        }
    }

    /// Whether no path has more ticks here than there.
    #[cycle(leq)]
    pub fn leq<'a>(&self, other: &'a Tree, empty: &'a Tree) -> bool
        requires { IsEmpty empty.now }
        ensures { MatchBool result (IsTreeWithin self.now other.now) (Exceeds self.now other.now) }
    {
        self.own() <= other.own() && self.sons_leq(other, empty)
    }

    // Whether no path below the node has more ticks here than there.
    #[cycle(leq)]
    fn sons_leq<'a>(&self, other: &'a Tree, empty: &'a Tree) -> bool
        requires { IsEmpty empty.now }
        ensures { MatchBool result (IsWithinBut [] self.now other.now) (ExceedsBut [] self.now other.now) }
    {
        match self {
            Tree::Leaf(_, _) => true,
            Tree::Left(_, _, zero) => zero.leq(other.son(false, empty), empty),
            Tree::Right(_, _, one) => one.leq(other.son(true, empty), empty),
            Tree::Fork(_, _, zero, one) => {
                zero.leq(other.son(false, empty), empty) && one.leq(other.son(true, empty), empty)
            }
        }
    }

    /// Whether no path but this one has more ticks here than there.
    pub fn leq_elsewhere<'a>(
        &'a self,
        other: &'a Tree,
        empty: &'a Tree,
        path: &Path,
        depth: u8,
    ) -> bool
        requires empty { IsEmpty empty.now }
        requires depth { depth ≤ length path.now }
        ensures { MatchBool result (IsWithinBut (drop depth path.now) self.now other.now)
            (ExceedsBut (drop depth path.now) self.now other.now) }
    {
        if depth == path.len() {
            return self.sons_leq(other, empty);
        }
        if self.own() > other.own() {
            return false;
        }
        let one = path.letter(depth);
        let there = other.son(one, empty);
        self.son(!one, empty).leq(other.son(!one, empty), empty)
            && self
                .son(one, empty)
                .leq_elsewhere(there, empty, path, depth + 1)
    }

    // Whether the node has a son at a letter.
    fn has_son(&self, one: bool) -> bool
        ensures { IsTrue result ↔ HasNode self.now ((if one then one_letter else zero_letter) ∷ []) }
    {
        match self {
            Tree::Leaf(_, _) => false,
            Tree::Left(_, _, _) => !one,
            Tree::Right(_, _, _) => one,
            Tree::Fork(_, _, _, _) => true,
        }
    }

    // The node with a fresh son at a letter; a son that is there already stays.
    fn with_son(self, one: bool, son: Box<Tree>) -> Tree
        requires { IsFresh son.value }
        ensures grows { Grows self result }
        ensures son { HasNode result ((if one then one_letter else zero_letter) ∷ []) }
        ensures height { height result ≤ max (height self) 1 }
    {
        match self {
            Tree::Leaf(way, ticks) => {
                if one {
                    Tree::Right(way, ticks, son)
                } else {
                    Tree::Left(way, ticks, son)
                }
            }
            Tree::Left(way, ticks, left) => {
                if one {
                    Tree::Fork(way, ticks, left, son)
                } else {
                    Tree::Left(way, ticks, left)
                }
            }
            Tree::Right(way, ticks, right) => {
                if one {
                    Tree::Right(way, ticks, right)
                } else {
                    Tree::Fork(way, ticks, son, right)
                }
            }
            Tree::Fork(way, ticks, left, right) => Tree::Fork(way, ticks, left, right),
        }
    }

    // Gives the node a son with no ticks at a letter, where it has none.
    fn grow(&mut self, one: bool, alloc: Global) -> Result<(), AllocError>
        ensures grows { Grows self.old self.new }
        ensures ok { OnOk result (HasNode self.new ((if one then one_letter else zero_letter) ∷ [])) }
        ensures succeeds { (rest : List ℕ) → HasNode self.old ((if one then one_letter else zero_letter) ∷ rest) → IsOk result }
        ensures height { height self.new ≤ max (height self.old) 1 }
    {
        if self.has_son(one) {
            return Ok(());
        }
        let son = Box::new(alloc, Tree::fresh())?;
        let old = mem::replace(self, Tree::fresh());
        *self = old.with_son(one, son);
        Ok(())
    }

    /// Makes the nodes down to the path, with no ticks.
    pub fn reserve(&mut self, path: &Path, depth: u8, alloc: Global) -> Result<(), AllocError>
        requires { depth ≤ length path.now }
        ensures grows { Grows self.old self.new }
        ensures ok { OnOk result (HasNode self.new (drop depth path.now)) }
        ensures succeeds { HasNode self.old (drop depth path.now) → IsOk result }
        ensures height { height self.new ≤ max (height self.old) (path_limit - depth) }
    {
        if depth == path.len() {
            return Ok(());
        }
        let one = path.letter(depth);
        self.grow(one, alloc)?;
        if one {
            match self {
                Tree::Right(_, _, son) => son.reserve(path, depth + 1, alloc),
                Tree::Fork(_, _, _, son) => son.reserve(path, depth + 1, alloc),
                _ => unreachable!(),
            }
        } else {
            match self {
                Tree::Left(_, _, son) => son.reserve(path, depth + 1, alloc),
                Tree::Fork(_, _, son, _) => son.reserve(path, depth + 1, alloc),
                _ => unreachable!(),
            }
        }
    }

    // Raises the ticks of the node itself, where they are fewer.
    fn raise_own(&mut self, ticks: u32)
        ensures raises { RaisesNode self.old self.new [] ticks }
        ensures height { height self.new ≡ height self.old }
    {
        match self {
            Tree::Leaf(_, own) => *own = (*own).max(ticks),
            Tree::Left(_, own, _) => *own = (*own).max(ticks),
            Tree::Right(_, own, _) => *own = (*own).max(ticks),
            Tree::Fork(_, own, _, _) => *own = (*own).max(ticks),
        }
    }

    /// Raises the ticks of the path, where they are fewer.
    pub fn raise(&mut self, path: &Path, depth: u8, ticks: u32)
        requires depth { depth ≤ length path.now }
        requires node { HasNode self.old (drop depth path.now) }
        ensures raises { RaisesNode self.old self.new (drop depth path.now) ticks }
        ensures height { height self.new ≡ height self.old }
    {
        if depth == path.len() {
            self.raise_own(ticks);
            return;
        }
        if path.letter(depth) {
            match self {
                Tree::Right(_, _, one) => one.raise(path, depth + 1, ticks),
                Tree::Fork(_, _, _, one) => one.raise(path, depth + 1, ticks),
                _ => unreachable!(),
            }
        } else {
            match self {
                Tree::Left(_, _, zero) => zero.raise(path, depth + 1, ticks),
                Tree::Fork(_, _, zero, _) => zero.raise(path, depth + 1, ticks),
                _ => unreachable!(),
            }
        }
    }

    // Makes the node itself the end of the own path.
    fn end_own(&mut self)
        ensures own { own_of self.new ≡ Some [] }
        ensures ticks { listed self.new ≡ listed self.old }
        ensures nodes { nodes self.new ≡ nodes self.old }
        ensures height { height self.new ≡ height self.old }
    {
        match self {
            Tree::Leaf(way, _) => *way = Way::Here,
            Tree::Left(way, _, _) => *way = Way::Here,
            Tree::Right(way, _, _) => *way = Way::Here,
            Tree::Fork(way, _, _, _) => *way = Way::Here,
        }
    }

    /// Makes the path, which has a node, the own one. It takes no memory.
    pub fn set_own(&mut self, path: &Path, depth: u8)
        requires depth { depth ≤ length path.now }
        requires node { HasNode self.old (drop depth path.now) }
        ensures own { own_of self.new ≡ Some (drop depth path.now) }
        ensures ticks { listed self.new ≡ listed self.old }
        ensures nodes { nodes self.new ≡ nodes self.old }
        ensures height { height self.new ≡ height self.old }
    {
        if depth == path.len() {
            self.end_own();
            return;
        }
        if path.letter(depth) {
            match self {
                Tree::Right(way, _, one) => {
                    *way = Way::One;
                    one.set_own(path, depth + 1);
                }
                Tree::Fork(way, _, _, one) => {
                    *way = Way::One;
                    one.set_own(path, depth + 1);
                }
                _ => unreachable!(),
            }
        } else {
            match self {
                Tree::Left(way, _, zero) => {
                    *way = Way::Zero;
                    zero.set_own(path, depth + 1);
                }
                Tree::Fork(way, _, zero, _) => {
                    *way = Way::Zero;
                    zero.set_own(path, depth + 1);
                }
                _ => unreachable!(),
            }
        }
    }

    /// The own path, which leads on from the given one, with its ticks.
    pub fn own_dot(&self, path: Path) -> Option<Dot>
        requires { length path + height self.now ≤ path_limit }
        ensures { result ≡ option_map (λ rest. record { path = path ++ rest; tick = ticks_at self.now rest }) (own_of self.now) }
    {
        match self {
            Tree::Leaf(way, ticks) => match way {
                Way::Zero => None,
                Way::One => None,
                Way::Away => None,
                Way::Here => Some(Dot { path, tick: *ticks }),
            },
            Tree::Left(way, ticks, zero) => match way {
                Way::Zero => zero.own_dot(path.child(false)),
                Way::One => None,
                Way::Away => None,
                Way::Here => Some(Dot { path, tick: *ticks }),
            },
            Tree::Right(way, ticks, one) => match way {
                Way::Zero => None,
                Way::One => one.own_dot(path.child(true)),
                Way::Away => None,
                Way::Here => Some(Dot { path, tick: *ticks }),
            },
            Tree::Fork(way, ticks, zero, one) => match way {
                Way::Zero => zero.own_dot(path.child(false)),
                Way::One => one.own_dot(path.child(true)),
                Way::Away => None,
                Way::Here => Some(Dot { path, tick: *ticks }),
            },
        }
    }

    /// Makes a node, with no ticks, wherever this tree has one.
    #[cycle(reserve_in)]
    pub fn reserve_in(&self, into: &mut Tree, alloc: Global) -> Result<(), AllocError>
        ensures grows { Grows into.old into.new }
        ensures ok { OnOk result (HasNodesOf into.new self.now) }
        ensures height { height into.new ≤ max (height into.old) (height self.now) }
    {
        match self {
            Tree::Leaf(_, _) => Ok(()),
            Tree::Left(_, _, zero) => zero.reserve_left(into, alloc),
            Tree::Right(_, _, one) => one.reserve_right(into, alloc),
            Tree::Fork(_, _, zero, one) => {
                zero.reserve_left(into, alloc)?;
                one.reserve_right(into, alloc)
            }
        }
    }

    // Makes a node, with no ticks, below the letter `0` wherever this tree has one.
    #[cycle(reserve_in)]
    fn reserve_left(&self, into: &mut Tree, alloc: Global) -> Result<(), AllocError>
        ensures grows { Grows into.old into.new }
        ensures ok { OnOk result (HasNodesBelow zero_letter into.new self.now) }
        ensures height { height into.new ≤ max (height into.old) (suc (height self.now)) }
    {
        into.grow(false, alloc)?;
        match into {
            Tree::Left(_, _, zero) => self.reserve_in(zero, alloc),
            Tree::Fork(_, _, zero, _) => self.reserve_in(zero, alloc),
            Tree::Leaf(_, _) => unreachable!(),
            Tree::Right(_, _, _) => unreachable!(),
        }
    }

    // Makes a node, with no ticks, below the letter `1` wherever this tree has one.
    #[cycle(reserve_in)]
    fn reserve_right(&self, into: &mut Tree, alloc: Global) -> Result<(), AllocError>
        ensures grows { Grows into.old into.new }
        ensures ok { OnOk result (HasNodesBelow one_letter into.new self.now) }
        ensures height { height into.new ≤ max (height into.old) (suc (height self.now)) }
    {
        into.grow(true, alloc)?;
        match into {
            Tree::Right(_, _, one) => self.reserve_in(one, alloc),
            Tree::Fork(_, _, _, one) => self.reserve_in(one, alloc),
            Tree::Leaf(_, _) => unreachable!(),
            Tree::Left(_, _, _) => unreachable!(),
        }
    }

    /// Raises the ticks of each path to those of this tree, where they are fewer.
    #[cycle(raise_in)]
    pub fn raise_in(&self, into: &mut Tree)
        requires { HasNodesOf into.old self.now }
        ensures raises { (path : List ℕ) → node_at into.new path
            ≡ raised_node (node_at into.old path) (ticks_at self.now path) }
        ensures height { height into.new ≡ height into.old }
    {
        into.raise_own(self.own());
        match self {
            Tree::Leaf(_, _) => {}
            Tree::Left(_, _, zero) => zero.raise_left(into),
            Tree::Right(_, _, one) => one.raise_right(into),
            Tree::Fork(_, _, zero, one) => {
                zero.raise_left(into);
                one.raise_right(into);
            }
        }
    }

    // Raises the ticks of each path below the letter `0` to those of this tree, where they are fewer.
    #[cycle(raise_in)]
    fn raise_left(&self, into: &mut Tree)
        requires { HasNodesBelow zero_letter into.old self.now }
        ensures raises { RaisesBelow zero_letter into.old into.new (ticks_at self.now) }
        ensures height { height into.new ≡ height into.old }
    {
        match into {
            Tree::Left(_, _, zero) => self.raise_in(zero),
            Tree::Fork(_, _, zero, _) => self.raise_in(zero),
            Tree::Leaf(_, _) => unreachable!(),
            Tree::Right(_, _, _) => unreachable!(),
        }
    }

    // Raises the ticks of each path below the letter `1` to those of this tree, where they are fewer.
    #[cycle(raise_in)]
    fn raise_right(&self, into: &mut Tree)
        requires { HasNodesBelow one_letter into.old self.now }
        ensures raises { RaisesBelow one_letter into.old into.new (ticks_at self.now) }
        ensures height { height into.new ≡ height into.old }
    {
        match into {
            Tree::Right(_, _, one) => self.raise_in(one),
            Tree::Fork(_, _, _, one) => self.raise_in(one),
            Tree::Leaf(_, _) => unreachable!(),
            Tree::Left(_, _, _) => unreachable!(),
        }
    }

    // How many entries the node itself has.
    fn own_count(&self) -> usize
        ensures { result ≡ length (entry_of [] (ticks_at self.now [])) }
    {
        if self.own() == 0 { 0 } else { 1 }
    }

    /// How many paths have ticks, or 2^64 - 1 where there are more. Takes no memory.
    pub fn count(&self) -> usize
        ensures { result ≡ min (length (listed self.now)) (2 ^ 64 - 1) }
    {
        let own = self.own_count();
        match self {
            Tree::Leaf(_, _) => own,
            Tree::Left(_, _, zero) => own.saturating_add(zero.count()),
            Tree::Right(_, _, one) => own.saturating_add(one.count()),
            Tree::Fork(_, _, zero, one) => own
                .saturating_add(zero.count())
                .saturating_add(one.count()),
        }
    }

    /// Adds the paths below the given one with their ticks at the end of a list, by path.
    pub fn append_to(&self, path: Path, list: &mut Vec<(Path, u32)>) -> Result<(), AllocError>
        requires { length path + height self.now ≤ path_limit }
        ensures { OnOk result (list.new.items ≡ list.old.items ++ under path (listed self.now)) }
    {
        push_entry(list, path, self.own())?;
        match self {
            Tree::Leaf(_, _) => Ok(()),
            Tree::Left(_, _, zero) => zero.append_to(path.child(false), list),
            Tree::Right(_, _, one) => one.append_to(path.child(true), list),
            Tree::Fork(_, _, zero, one) => {
                zero.append_to(path.child(false), list)?;
                one.append_to(path.child(true), list)
            }
        }
    }

    /// A copy.
    pub fn copy_in(&self, alloc: Global) -> Result<Tree, AllocError>
        ensures ticks { IfOk result (λ copy. listed copy ≡ listed self.now) }
        ensures nodes { IfOk result (λ copy. nodes copy ≡ nodes self.now) }
        ensures own { IfOk result (λ copy. own_of copy ≡ own_of self.now) }
        ensures height { IfOk result (λ copy. height copy ≡ height self.now) }
    {
        match self {
            Tree::Leaf(way, ticks) => Ok(Tree::Leaf(*way, *ticks)),
            Tree::Left(way, ticks, zero) => {
                let zero = Box::new(alloc, zero.copy_in(alloc)?)?;
                Ok(Tree::Left(*way, *ticks, zero))
            }
            Tree::Right(way, ticks, one) => {
                let one = Box::new(alloc, one.copy_in(alloc)?)?;
                Ok(Tree::Right(*way, *ticks, one))
            }
            Tree::Fork(way, ticks, zero, one) => {
                let zero = Box::new(alloc, zero.copy_in(alloc)?)?;
                let one = Box::new(alloc, one.copy_in(alloc)?)?;
                Ok(Tree::Fork(*way, *ticks, zero, one))
            }
        }
    }
}

// Adds a path with its ticks at the end of a list, unless it has none.
fn push_entry(list: &mut Vec<(Path, u32)>, path: Path, ticks: u32) -> Result<(), AllocError>
    ensures { OnOk result (list.new.items ≡ list.old.items ++ entry_of path ticks) }
{
    if ticks > 0 {
        list.push((path, ticks))?;
    }
    Ok(())
}
