//! What is claimed of registers and tables of targets.

use jump_laws::TableRead;
use stack_tables::StackClaim;

/// Two tables for a program, and by node what is claimed before the instruction there: that a register has a word of a table.
#[derive(Clone, Copy)]
pub struct ReadClaim<'a> {
    pub claim: &'a StackClaim<'a>,
    pub reads: &'a [Option<TableRead>],
}
