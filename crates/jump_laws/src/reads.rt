//! A register that has a word of a table.

use fixed_tables::Table;

/// What is known where an instruction stands: the register has a word of the table, with what is added to it.
#[derive(Clone, Copy, PartialEq, Eq)]
pub struct TableRead {
    pub register: u8,
    pub table: Table,
}
