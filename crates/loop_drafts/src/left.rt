//! Loops that read the input: whether their turns are counted in what is left of it.

ghost use Rattle.stack_tables.specs.Tables.{IsStackClaim};

use crate::exact::instr_or_end;
use loop_forest::LoopTree;
use scale_base::Instr;
use shown_bounds::StackCertificate;
use stack_tables::StackClaim;
use turn_checks::TurnPlace;
use value_checks::ValueTable;

/// The register with the number of a service.
const SERVICE: usize = 17;

/// The number of the one that reads.
const READ: u64 = 63;

/// Whether a certificate counts the turns of its loop in what is left of the input.
pub fn counts_input(certificate: &StackCertificate) -> bool {
    match &certificate.turns {
        Some(table) => matches!(table.place, TurnPlace::Input),
        None => false,
    }
}

// Whether a call of a service at a node is one that reads.
fn has_read_number(table: &ValueTable, node: usize) -> bool {
    match table.rows.get(node) {
        Some(row) => match row[SERVICE] {
            Some(arc) => arc.more() == 0 && arc.low() == READ,
            None => false,
        },
        None => false,
    }
}

// Whether the instruction of a node is such a call.
fn is_read(claim: &StackClaim<'_>, node: usize) -> bool
    requires { IsStackClaim claim.now }
{
    node < claim.graph.node_count()
        && matches!(
            instr_or_end(claim.view, claim.graph.node(node)),
            Instr::Ecall
        )
        && has_read_number(claim.table, node)
}

/// Whether the code of loop k reads the input.
pub fn reads_input(claim: &StackClaim<'_>, tree: &LoopTree, k: usize) -> bool
    requires { IsStackClaim claim.now }
{
    if k >= tree.loop_count() {
        return false;
    }
    for node in tree.body(k) {
        if is_read(claim, *node) {
            return true;
        }
    }
    false
}
