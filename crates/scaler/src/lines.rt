//! The lines of a plan: a line for each fragment of each edge.

ghost use Rattle.std.specs.Prelude.{◌≡◌, ◌<◌, ◌≤◌, length, IfOk, OnOk};
ghost use Rattle.scaler.specs.Planned.{loop_number};
ghost use Rattle.marked_images.specs.Markings.{HasMarking};
ghost use Rattle.scaler.specs.Lines.{IsOfLoop, ArePushedAt, AreLinesOf};

use marked_images::{Marked, fragment_of};
use power_model::Power;
use scale_base::{Fragment, NoMemory, SiteLine};
use scale_sites::CounterList;
use std::alloc::Global;

/// The number of the loop of a fragment, from 1 on; 0 for a switch.
fn loop_number(counters: &CounterList, fragment: &Fragment) -> u32
    requires { IsOfLoop counters.now fragment.now }
    ensures { result ≡ loop_number counters.now fragment.now }
{
    let counter = match fragment {
        Fragment::Switch { .. } => return 0,
        Fragment::Lowest { .. } => return 0,
        Fragment::Exit { counter, .. } => *counter,
        Fragment::Reset { counter } => *counter,
        Fragment::Count { counter } => *counter,
        Fragment::Tally { counter, .. } => *counter,
    };
    *counters.get(usize::from(counter - 2)) as u32 + 1
}

/// A line for each fragment of edge `e`.
fn push_lines(
    lines: &mut Vec<SiteLine>,
    power: &Power,
    marked: &Marked,
    e: usize,
) -> Result<(), NoMemory>
    requires marking { HasMarking power.now marked.now.graph marked.now.tree marked.now.marking }
    requires few { length marked.now.tree.headers ≤ 4096 }
    requires edge { e < length marked.now.graph.code.edges }
    ensures { OnOk result (ArePushedAt power.now marked.now.graph marked.now.tree marked.now.marking e lines.old.items lines.new.items) }
{
    let marking = &marked.marking;
    let edge = marked.graph.edge(e);
    for mark in marking.sites.marks(e) {
        let fragment = fragment_of(power, marked, e, *mark);
        lines.push(SiteLine {
            edge,
            loop_no: loop_number(&marking.counters, &fragment),
            fragment,
        })?;
    }
    Ok(())
}

/// A line for each fragment of each edge, in the edges' order.
pub fn site_lines(alloc: Global, power: &Power, marked: &Marked) -> Result<Vec<SiteLine>, NoMemory>
    requires marking { HasMarking power.now marked.now.graph marked.now.tree marked.now.marking }
    requires few { length marked.now.tree.headers ≤ 4096 }
    ensures { IfOk result (λ lines. AreLinesOf power.now marked.now.graph marked.now.tree marked.now.marking lines.items) }
{
    let mut lines = Vec::new(alloc);
    for e in 0..marked.graph.edge_count() {
        push_lines(&mut lines, power, marked, e)?;
    }
    Ok(lines)
}
