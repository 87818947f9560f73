//! The ready streams as a winner tree.
ghost use Rattle.std.specs.Prelude.{◌≡◌, ◌+◌, ◌-◌, ◌<◌, ◌≤◌, IfOk, IfSome, IfNone, None, length, replicate};
ghost use Rattle.std.specs.Prelude.{[], ◌∷◌, ◌++◌, ℕ, IsFalse, IsTrue, drop, slice_set};
ghost use Rattle.edf_pool.specs.Earliest.{IsEarliest, NoneReady};
ghost use Rattle.edf_pool.specs.Tree.{AreWinners};

use crate::node::{Compares, Node, Ready};
use cbs_account::limits::MOST_STREAMS;
use std::alloc::{AllocError, Global};
use std::marker::Model;

const NODES: usize = 2 * MOST_STREAMS;

/// The ready streams with their deadlines. Contracts see the list of the deadlines by stream, in which a
/// stream that isn't ready has none.
///
/// The streams are the leaves of a winner tree: node 64 + s is stream s, and node i below 64 is the lesser of
/// nodes 2i and 2i + 1, so that node 1 is the earliest of all. Only [`Pool::new`] takes memory.
#[derive(Drop)]
pub struct Pool {
    nodes: Box<[Node; NODES]>,
    streams: u32,
}

impl Model for Pool {
    ghost use Rattle.std.specs.Prelude.{ℕ, List, Option};

    ghost Value = { List (Option ℕ) };

    ghost use Rattle.edf_pool.specs.Tree.{IsTree, deadlines};

    ghost view = { λ p. deadlines p.streams p.nodes.value };

    ghost invariant = { λ p. IsTree p.streams p.nodes.value };
}

impl Pool {
    /// A pool of streams none of which is ready.
    pub fn new(alloc: Global, streams: u32) -> Result<Pool, AllocError>
        requires { (1 ≤ streams) × (streams ≤ MOST_STREAMS) }
        ensures { IfOk result (λ pool. pool ≡ replicate streams None) }
    {
        let nodes = Box::new(alloc, [None; NODES])?;
        Ok(Pool { nodes, streams })
    }

    /// One stream more, behind all others. It isn't ready.
    pub fn grow(&mut self)
        requires { length self.old < MOST_STREAMS }
        ensures { self.new ≡ self.old ++ None ∷ [] }
    {
        self.streams += 1;
    }

    /// A pool of so many streams from now on, none of which is ready.
    pub fn reset(&mut self, streams: u32)
        requires { (1 ≤ streams) × (streams ≤ MOST_STREAMS) }
        ensures { self.new ≡ replicate streams None }
    {
        clear(&mut self.nodes);
        self.streams = streams;
    }

    /// Tells the pool that stream `s` is ready with this deadline, or isn't ready.
    pub fn set_ready(&mut self, s: u32, deadline: Option<u64>, compares: &mut Compares)
        requires { s < length self.old }
        ensures deadlines { self.new ≡ slice_set self.old s deadline }
        ensures counted { compares.old.made ≤ compares.new.made }
        ensures at_most_six { compares.new.made ≤ compares.old.made + 6 }
    {
        let leaf = MOST_STREAMS + s as usize;
        set_leaf(&mut self.nodes, leaf, Ready::node(s, deadline), compares);
    }

    /// The ready stream with the earliest deadline, among equal deadlines that with the lowest number.
    pub fn earliest(&self) -> Option<u32>
        ensures earliest { IfSome result (IsEarliest self.now) }
        ensures none { IfNone result (NoneReady self.now) }
    {
        self.nodes[1].map(|ready| ready.stream())
    }

    /// Whether a stream is ready.
    pub fn any_ready(&self) -> bool
        ensures ready { IsTrue result → (s : ℕ) × IsEarliest self.now s }
        ensures none { IsFalse result → NoneReady self.now }
    {
        self.earliest().is_some()
    }
}

/// Lets no node hold a stream.
fn clear(nodes: &mut [Node; NODES])
    ensures { nodes.new ≡ replicate NODES None }
{
    *nodes = [None; NODES];
}

/// Puts a node in the place of a leaf, and lets each node above it be the lesser of its two again.
fn set_leaf(nodes: &mut [Node; NODES], leaf: usize, node: Node, compares: &mut Compares)
    requires leaf { (MOST_STREAMS ≤ leaf) × (leaf < NODES) }
    requires winners { AreWinners nodes.old }
    ensures winners { AreWinners nodes.new }
    ensures leaves { drop MOST_STREAMS nodes.new
        ≡ slice_set (drop MOST_STREAMS nodes.old) (leaf - MOST_STREAMS) node }
    ensures counted { compares.old.made ≤ compares.new.made }
    ensures at_most_six { compares.new.made ≤ compares.old.made + 6 }
{
    nodes[leaf] = node;
    let mut i = leaf;
    while i > 1 {
        i /= 2;
        let left = nodes[2 * i];
        let right = nodes[2 * i + 1];
        nodes[i] = compares.lesser(left, right);
    }
}
