//! Whether the code confirms two tables.

ghost use Rattle.std.specs.Prelude.{◌≡◌, true};
ghost use Rattle.code_text.specs.TextGraph.{text_graph};
ghost use Rattle.stack_laws.specs.Stacks as stacks;
ghost use Rattle.stack_tables.specs.Tables.{IsStackClaim, stacks_in, text_in, values_in};

use crate::edges::is_edge_checked;
use stack_tables::StackClaim;

/// Whether the code confirms what two tables say, edge by edge.
pub fn is_confirmed(claim: &StackClaim<'_>) -> bool
    requires { IsStackClaim claim.now }
    ensures { result ≡ true → stacks.IsStackInvariant (text_in claim.now) (text_graph (text_in claim.now) claim.now.graph.now.code)
        (values_in claim.now) (stacks_in claim.now) }
{
    for e in 0..claim.graph.edge_count() {
        if !is_edge_checked(claim, e) {
            return false;
        }
    }
    true
}
