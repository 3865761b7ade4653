//! Laws of reached code.

ghost use Rattle.cost_theory.specs.Laws.{ReachedCodeIsProgram, ReachedCodeIsNotShared, GraphsAgree, EdgesStartAtNodes, CallOrderShows, PlainOrderShows, CallOrderExists, PlainOrderExists, NoLoopsAccepted};

/// The graph over reached code is a program, where no reached word is refused and no function calls itself through others.
/// Its functions share no code: each node has one owner.
pub fn reached_code_is_a_program()
    ensures program { ReachedCodeIsProgram }
    ensures not_shared { ReachedCodeIsNotShared }
{}

/// Words that agree at the nodes where edges start give one graph: the same edges, calls, returns and exits.
pub fn graphs_agree()
    ensures { GraphsAgree }
{}

/// Each edge of reached code starts at one of its nodes.
pub fn edges_start_at_nodes()
    ensures { EdgesStartAtNodes }
{}

/// An order of the functions, callees first, shows that there is no recursion. An order of the nodes along plain edges
/// shows that each cycle takes a back edge of a loop.
pub fn orders_show_no_cycle()
    ensures of_calls { CallOrderShows }
    ensures of_plain_edges { PlainOrderShows }
{}

/// Each program has an order of its functions, callees first, and with accepted loops one of its nodes along plain edges.
pub fn orders_exist()
    ensures of_calls { CallOrderExists }
    ensures of_plain_edges { PlainOrderExists }
{}

/// A program without loops is accepted where its nodes have an order along all edges.
pub fn no_loops_are_accepted()
    ensures { NoLoopsAccepted }
{}
