//! An order of numbers along arcs, or a cycle of arcs: a topological sort by depth-first search (Tarjan 1976).
//! The numbers are functions and the arcs calls, or the numbers are nodes and the arcs edges.

ghost use Rattle.std.specs.Prelude.{◌≡◌, ℕ, ◌^◌, ◌<◌, ◌↔◌, true, length, IfOk};
ghost use Rattle.graph_algorithms.specs.Arcs.{AreNumbered, HasNoCycle, IsAnswer, is_sorted};

mod chains;
mod cycles;
mod search;

pub use cycles::least_first;
use scale_base::NoMemory;
use search::Search;
use std::alloc::Global;

/// An arc from one number to another: a call, by the numbers of its caller and its callee.
#[derive(Clone, Copy, Drop)]
pub struct Arc {
    pub from: usize,
    pub to: usize,
}

/// The numbers in an order, or why there is none.
#[derive(Drop)]
pub enum Order {
    /// Each number once, behind all to which its arcs lead: callees first.
    Sorted(Vec<usize>),
    /// Different numbers, each with an arc to the next and the last with an arc to the first.
    Cycle(Vec<usize>),
}

/// Whether all arcs lead between numbers below `count`.
pub fn are_numbered(count: usize, arcs: &[Arc]) -> bool
    ensures { (result ≡ true) ↔ AreNumbered count arcs.now }
{
    for arc in arcs {
        if arc.from >= count || arc.to >= count {
            return false;
        }
    }
    true
}

/// Sorts the numbers below `count`, in time and space linear in the numbers and the arcs.
pub fn sort(alloc: Global, count: usize, arcs: &[Arc]) -> Result<Order, NoMemory>
    requires count { count < 2 ^ 32 }
    requires arcs { length arcs.now < 2 ^ 32 }
    requires numbered { AreNumbered count arcs.now }
    ensures answer { IfOk result (λ order. IsAnswer count arcs.now order) }
    ensures exactly { IfOk result (λ order. (is_sorted order ≡ true) ↔ HasNoCycle arcs.now) }
{
    let mut search = Search::new(alloc, count, arcs)?;
    for root in 0..count {
        if let Some(start) = search.visit(arcs, root)? {
            return Ok(Order::Cycle(search.path[start..].to_vec(alloc)?));
        }
    }
    Ok(Order::Sorted(search.order))
}
