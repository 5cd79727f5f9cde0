//! Numbers in a tree. A node without a fork has at most one number; every other one parts its numbers at a pivot,
//! which is the middle of a range of numbers whose length is a power of two. So no tree is higher than a number has bits.
ghost use Rattle.std.specs.Prelude.{◌≡◌, ◌≢◌, ◌<◌, ◌≤◌, ◌++◌, ◌+◌, IfOk, OnOk, OnErr, IsSome, IsTrue, None, vec_len, vec_capacity};
ghost use Rattle.std.specs.FinMap as finite;
ghost use Rattle.nb_ready.specs.First.{IsFirst};
ghost use Rattle.nb_ready.specs.Seats.{counts_of, LiesWithin};
ghost use Rattle.nb_ready.specs.Nodes.{shown, joined, AreApart, IsForked, IsTree};

use crate::first::First;
use crate::seat::Seat;
use nb_base::{Count, NoMemory};
use std::alloc::Global;
use std::marker::Model;
use std::mem;

/// The numbers of a range.
#[cycle(tree)]
#[derive(Drop)]
pub(crate) struct Tree {
    node: Node,
}

#[cycle(tree)]
#[derive(Drop)]
enum Node {
    Empty,
    One(u64, Seat),
    // The numbers below the pivot, the pivot, the first of all the numbers, and the numbers from the pivot on.
    Fork(Box<Tree>, u64, First, Box<Tree>),
}

impl Model for Tree {
    ghost use Rattle.nb_ready.specs.Seats.{Shown, shown_code};

    ghost Value = { Shown };

    ghost coded = { shown_code };

    ghost use Rattle.nb_ready.specs.Nodes.{shown, IsTree};

    ghost view = { λ a. shown a.node };

    ghost invariant = { λ a. IsTree a.node };

    ghost size = { λ v. v.1 };

    ghost use Rattle.std.proofs.Common.{arith};

    ghost size_decreases = { λ a h. Prim.grind arith };
}

impl Tree {
    /// No numbers.
    pub fn new() -> Tree
        ensures { result.0 ≡ finite.empty }
    {
        Tree { node: Node::Empty }
    }

    /// The first of the numbers.
    pub fn first(&self) -> First
        ensures { IsFirst self.now.0 result }
    {
        match &self.node {
            Node::Empty => First::NONE,
            Node::One(number, seat) => First::of(*number, *seat),
            Node::Fork(_, _, first, _) => *first,
        }
    }

    /// What is known of a number.
    pub fn get(&self, number: u64) -> Option<Seat>
        ensures { result ≡ finite.get self.now.0 number }
    {
        match &self.node {
            Node::Empty => None,
            Node::One(n, seat) => { if *n == number { Some(*seat) } else { None } }
            Node::Fork(low, pivot, _, high) => {
                if number < *pivot {
                    low.get(number)
                } else {
                    high.get(number)
                }
            }
        }
    }

    /// Changes what is known of a number.
    pub fn set(&mut self, number: u64, to: Seat)
        requires { IsSome (finite.get self.old.0 number) }
        ensures { self.new.0 ≡ finite.insert self.old.0 number to }
    {
        match &mut self.node {
            Node::Empty => return,
            Node::One(_, seat) => {
                *seat = to;
                return;
            }
            Node::Fork(low, pivot, _, high) => {
                if number < *pivot {
                    low.set(number, to);
                } else {
                    high.set(number, to);
                }
            }
        }
        refresh(&mut self.node);
    }

    /// The one number.
    fn one(number: u64, seat: Seat) -> Tree
        ensures { result.0 ≡ finite.insert finite.empty number seat }
    {
        Tree {
            node: Node::One(number, seat),
        }
    }

    /// Whether it is known to have no number.
    fn is_empty(&self) -> bool
        ensures { IsTrue result → self.now.0 ≡ finite.empty }
    {
        matches!(&self.node, Node::Empty)
    }

    fn is_fork(&self) -> bool {
        matches!(&self.node, Node::Fork(..))
    }

    fn open(self) -> Node
        ensures same { shown result ≡ self }
        ensures tree { IsTree result }
    {
        self.node
    }

    /// Adds a number. The tree has the numbers of a range that is `top` bits wide.
    pub fn add(&mut self, alloc: Global, top: u32, number: u64, seat: Seat) -> Result<(), NoMemory>
        requires new { finite.get self.old.0 number ≡ None }
        requires top { top ≤ 64 }
        ensures ok { OnOk result (self.new.0 ≡ finite.insert self.old.0 number seat) }
        ensures err { OnErr result (self.new.0 ≡ self.old.0) }
    {
        match &mut self.node {
            Node::Empty => {
                self.node = Node::One(number, seat);
                return Ok(());
            }
            Node::One(n, s) => {
                let both = pair(alloc, top, *n, *s, number, seat)?;
                self.node = both.open();
                return Ok(());
            }
            Node::Fork(low, pivot, _, high) => {
                let below = top.saturating_sub(1);
                if number < *pivot {
                    low.add(alloc, below, number, seat)?;
                } else {
                    high.add(alloc, below, number, seat)?;
                }
            }
        }
        refresh(&mut self.node);
        Ok(())
    }

    /// Takes a number out.
    pub fn remove(&mut self, number: u64)
        ensures { self.new.0 ≡ finite.remove self.old.0 number }
    {
        match &mut self.node {
            Node::Empty => return,
            Node::One(n, _) => {
                if *n != number {
                    return;
                }
                self.node = Node::Empty;
                return;
            }
            Node::Fork(low, pivot, _, high) => {
                if number < *pivot {
                    low.remove(number);
                } else {
                    high.remove(number);
                }
            }
        }
        collapse(&mut self.node);
    }

    /// Adds the counts above 0 to a list that has room for them.
    pub fn list(&self, out: &mut Vec<Count>)
        requires { vec_len out.old + finite.len self.now.0 ≤ vec_capacity out.old }
        ensures items { out.new.items ≡ out.old.items ++ counts_of self.now.0 }
        ensures room { vec_capacity out.new ≡ vec_capacity out.old }
    {
        match &self.node {
            Node::Empty => {}
            Node::One(number, seat) => {
                if seat.count > 0 {
                    out.push_reserved(Count {
                        number: *number,
                        count: seat.count,
                    });
                }
            }
            Node::Fork(low, _, _, high) => {
                low.list(out);
                high.list(out);
            }
        }
    }
}

/// Notes the first of the numbers of a fork.
fn refresh(node: &mut Node)
    requires { IsForked node.old }
    ensures tree { IsTree node.new }
    ensures same { shown node.new ≡ shown node.old }
{
    if let Node::Fork(low, _, first, high) = node {
        *first = low.first().before(high.first());
    }
}

/// A fork, unless it has at most one number.
fn closed(low: Box<Tree>, pivot: u64, high: Box<Tree>) -> Node
    requires { AreApart low.value.0 pivot high.value.0 }
    ensures tree { IsTree result }
    ensures same { (shown result).0 ≡ joined low.value.0 high.value.0 }
{
    if low.is_empty() && !high.is_fork() {
        return Box::into_inner(high).open();
    }
    if high.is_empty() && !low.is_fork() {
        return Box::into_inner(low).open();
    }
    let first = low.first().before(high.first());
    Node::Fork(low, pivot, first, high)
}

/// Takes a fork away that has at most one number.
fn collapse(node: &mut Node)
    requires { IsForked node.old }
    ensures tree { IsTree node.new }
    ensures same { (shown node.new).0 ≡ (shown node.old).0 }
{
    *node = match mem::replace(node, Node::Empty) {
        Node::Empty => Node::Empty,
        Node::One(number, seat) => Node::One(number, seat),
        Node::Fork(low, pivot, _, high) => closed(low, pivot, high),
    };
}

fn fork(alloc: Global, low: Tree, pivot: u64, high: Tree) -> Result<Tree, NoMemory>
    requires { AreApart low.0 pivot high.0 }
    ensures { IfOk result (λ t. t.0 ≡ joined low.0 high.0) }
{
    let first = low.first().before(high.first());
    let low = Box::new(alloc, low)?;
    let high = Box::new(alloc, high)?;
    Ok(Tree {
        node: Node::Fork(low, pivot, first, high),
    })
}

/// The middle of the range around a number that is `level + 1` bits wide.
fn pivot_at(number: u64, level: u32) -> u64
    requires { level < 64 }
{
    (number >> level | 1) << level
}

/// The numbers of a tree, from one number to another one, within a wider range.
fn within(alloc: Global, tree: Tree, pivot: u64, from: u64, to: u64) -> Result<Tree, NoMemory>
    requires { LiesWithin tree.0 from to }
    ensures { IfOk result (λ t. t.0 ≡ tree.0) }
{
    if to < pivot {
        fork(alloc, tree, pivot, Tree::new())
    } else if pivot <= from {
        fork(alloc, Tree::new(), pivot, tree)
    } else {
        Ok(tree)
    }
}

/// Two numbers in a range that is `top` bits wide.
fn rising(alloc: Global, top: u32, n: u64, s: Seat, m: u64, t: Seat) -> Result<Tree, NoMemory>
    requires rising { n < m }
    requires top { top ≤ 64 }
    ensures { IfOk result (λ tree. tree.0 ≡ finite.insert (finite.insert finite.empty n s) m t) }
{
    let level = 63u32.saturating_sub((n ^ m).leading_zeros());
    let pivot = pivot_at(m, level).min(m).max(n + 1);
    let mut tree = fork(alloc, Tree::one(n, s), pivot, Tree::one(m, t))?;
    for above in level + 1..top {
        tree = within(alloc, tree, pivot_at(m, above), n, m)?;
    }
    Ok(tree)
}

/// Two numbers in a range that is `top` bits wide.
fn pair(alloc: Global, top: u32, n: u64, s: Seat, m: u64, t: Seat) -> Result<Tree, NoMemory>
    requires apart { n ≢ m }
    requires top { top ≤ 64 }
    ensures { IfOk result (λ tree. tree.0 ≡ finite.insert (finite.insert finite.empty n s) m t) }
{
    if n < m {
        rising(alloc, top, n, s, m, t)
    } else {
        rising(alloc, top, m, t, n, s)
    }
}
