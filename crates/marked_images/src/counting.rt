//! How many edges have marks of a kind.

ghost use Rattle.std.specs.Prelude.{◌≡◌, length};
ghost use Rattle.std.specs.List.{list_any};
ghost use Rattle.scale_sites.specs.Sites.{marks_at_edge};
ghost use Rattle.rewritten_runs.specs.Stubs.{edges_with, is_switch, is_exit_mark, is_count};

use flow_graph::CodeGraph;
use scale_base::Mark;
use scale_sites::Sites;

/// How many edges have a switch, an exit of a loop, and a count of a turn.
#[derive(Clone, Copy)]
pub struct EdgeCounts {
    pub switch: u32,
    pub exit: u32,
    pub count: u32,
}

fn has_switch(marks: &[Mark]) -> bool
    ensures { result ≡ list_any is_switch marks.now }
{
    marks.iter().any(|mark| matches!(mark, Mark::Switch | Mark::Lowest | Mark::Tally(_)))
}

fn has_exit(marks: &[Mark]) -> bool
    ensures { result ≡ list_any is_exit_mark marks.now }
{
    marks.iter().any(|mark| matches!(mark, Mark::Exit(_)))
}

fn has_count(marks: &[Mark]) -> bool
    ensures { result ≡ list_any is_count marks.now }
{
    marks
        .iter()
        .any(|mark| matches!(mark, Mark::Count(_) | Mark::Tally(_)))
}

pub fn count_edges(graph: &CodeGraph, sites: &Sites) -> EdgeCounts
    requires { length sites.now.marks ≡ length graph.now.code.edges }
    ensures switch { result.switch ≡ edges_with is_switch graph.now (marks_at_edge sites.now) }
    ensures exit { result.exit ≡ edges_with is_exit_mark graph.now (marks_at_edge sites.now) }
    ensures count { result.count ≡ edges_with is_count graph.now (marks_at_edge sites.now) }
{
    let mut counts = EdgeCounts {
        switch: 0,
        exit: 0,
        count: 0,
    };
    for e in 0..graph.edge_count() {
        let marks = sites.marks(e);
        counts.switch += u32::from(has_switch(marks));
        counts.exit += u32::from(has_exit(marks));
        counts.count += u32::from(has_count(marks));
    }
    counts
}
