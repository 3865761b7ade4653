//! What is known of the nesting of loops.

ghost use Rattle.std.specs.Prelude.{◌≡◌, ◌<◌, length};
ghost use Rattle.graph_algorithms.specs.Nesting.{NestingView, found_at};

use std::marker::Model;

/// The innermost loop round each node, and the next loop round each loop, by their numbers.
#[derive(Drop)]
pub struct Nesting {
    /// By node.
    innermost: Vec<Option<usize>>,
    /// By loop.
    parent: Vec<Option<usize>>,
}

impl Model for Nesting {
    ghost use Rattle.graph_algorithms.specs.Nesting.{NestingView};

    ghost Value = { NestingView };

    ghost view = { λ n. record { innermost = n.innermost.items; parent = n.parent.items } };
}

impl Nesting {
    pub(crate) fn new(innermost: Vec<Option<usize>>, parent: Vec<Option<usize>>) -> Nesting
        ensures { result ≡ record { innermost = innermost.items; parent = parent.items } }
    {
        Nesting { innermost, parent }
    }

    /// The loop with the shortest body of those that have the node.
    pub fn innermost(&self, node: usize) -> Option<usize>
        requires { node < length self.now.innermost }
        ensures { result ≡ found_at self.now.innermost node }
    {
        self.innermost[node]
    }

    /// The loop with the shortest body of those round the loop.
    pub fn parent(&self, number: usize) -> Option<usize>
        requires { number < length self.now.parent }
        ensures { result ≡ found_at self.now.parent number }
    {
        self.parent[number]
    }

    /// The innermost loop by node, and the next loop round each by loop.
    pub fn into_parts(self) -> (Vec<Option<usize>>, Vec<Option<usize>>)
        ensures innermost { result.0.items ≡ self.innermost }
        ensures parent { result.1.items ≡ self.parent }
    {
        (self.innermost, self.parent)
    }
}
