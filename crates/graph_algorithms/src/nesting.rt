//! The nesting of loops: which is the innermost round each node, and which is the next one round each loop.
//! Source: nested loops in Aho, Lam, Sethi and Ullman, Compilers, 9.6.

ghost use Rattle.std.specs.Prelude.{◌≡◌, ℕ, ◌<◌, length, IfOk};
ghost use Rattle.std.specs.List.{Contains};
ghost use Rattle.graph_algorithms.specs.Nesting.{bodies_of, AreLoops, IsNesting};
ghost use Rattle.graph_algorithms.specs.NestingPass.{ArePut};

mod found;
mod ranks;

pub use found::Nesting;
use ranks::falling_ranks;
use scale_base::NoMemory;
use std::alloc::Global;

/// Writes a loop at each node of its body.
fn put(innermost: &mut [Option<usize>], body: &[usize], number: usize)
    requires within { (v : ℕ) → Contains body.now v → v < length innermost.old }
    ensures size { length innermost.new ≡ length innermost.old }
    ensures put { ArePut innermost.old innermost.new body.now (length body.now) number }
{
    for node in body {
        innermost[*node] = Some(number);
    }
}

/// The nesting of loops over the nodes below `count`, by their bodies, each a list of nodes, and their headers. Each loop
/// has its header, and of two loops that have a node in common one has all nodes of the other and more.
///
/// In time n log n in the number of loops, and linear in the nodes and the lengths of the bodies.
pub fn nest_loops(
    alloc: Global,
    bodies: &[Vec<usize>],
    headers: &[usize],
    count: usize,
) -> Result<Nesting, NoMemory>
    requires loops { AreLoops (bodies_of bodies.now) headers.now count }
    ensures { IfOk result (λ nesting. IsNesting (bodies_of bodies.now) headers.now count nesting) }
{
    let mut innermost = vec![in alloc; None; count]?;
    let mut parent = vec![in alloc; None; bodies.len()]?;
    // A shorter loop overwrites those round it, of which the last stands at its header until then.
    for rank in &falling_ranks(alloc, bodies)? {
        let number = rank.number;
        parent[number] = innermost[headers[number]];
        put(&mut innermost, &bodies[number], number);
    }
    Ok(Nesting::new(innermost, parent))
}
