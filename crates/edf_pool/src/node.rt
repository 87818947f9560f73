//! The nodes of a winner tree, and the counter without which no two of them can be compared.
ghost use Rattle.std.specs.Prelude.{◌≡◌, ℕ, ◌+◌};
ghost use Rattle.std.specs.Borrow.{ftrue};

use std::marker::Model;

/// A ready stream and its deadline.
#[derive(Clone, Copy)]
pub(crate) struct Ready {
    deadline: u64,
    stream: u32,
}

/// A node of the tree: none where no stream below it is ready.
pub(crate) type Node = Option<Ready>;

impl Ready {
    ghost use Rattle.edf_pool.specs.Node.{node_of};

    /// The node of a stream that is ready with this deadline, or that isn't ready.
    pub(crate) fn node(stream: u32, deadline: Option<u64>) -> Node
        ensures { result ≡ node_of stream deadline }
    {
        deadline.map(|deadline| Ready { deadline, stream })
    }

    pub(crate) fn stream(self) -> u32
        ensures { result ≡ self.stream }
    {
        self.stream
    }
}

/// How many comparisons of nodes were made. The count, `made`, stands in contracts alone and takes no bytes.
/// Only [`Compares::less`], which compares two nodes, adds to it. What bounds the count that a call is handed
/// bounds no other one: that the call makes none of its own is to be read from its code.
#[derive(Drop)]
pub struct Compares {
    pub ghost made: { ℕ },
}

impl Model for Compares {
    ghost also_owns = { λ _. ftrue };
}

impl Compares {
    ghost use Rattle.edf_pool.specs.Node.{is_less, lesser};

    /// No comparison was made yet.
    pub fn new() -> Compares
        ensures { result.made ≡ 0 }
    {
        Compares {}
    }

    fn one_more(&self) -> Compares
        ensures { result.made ≡ self.now.made + 1 }
    {
        Compares {}
    }

    /// Whether `a` goes before `b`.
    pub(crate) fn less(&mut self, a: Node, b: Node) -> bool
        ensures less { result ≡ is_less a b }
        ensures counted { self.new.made ≡ self.old.made + 1 }
    {
        *self = self.one_more();
        match (a, b) {
            (Some(a), Some(b)) => {
                a.deadline < b.deadline || a.deadline == b.deadline && a.stream < b.stream
            }
            (Some(_), None) => true,
            (None, _) => false,
        }
    }

    /// Of two nodes the one that goes first, or `a` where neither does.
    pub(crate) fn lesser(&mut self, a: Node, b: Node) -> Node
        ensures lesser { result ≡ lesser a b }
        ensures counted { self.new.made ≡ self.old.made + 1 }
    {
        if self.less(b, a) { b } else { a }
    }
}
