//! Tables for a program.

use crate::tables::StackTable;
use elf_image::ImageView;
use flow_graph::CodeGraph;
use value_checks::ValueTable;

/// Two tables for a program.
#[derive(Clone, Copy)]
pub struct StackClaim<'a> {
    pub view: &'a ImageView<'a>,
    pub graph: &'a CodeGraph,
    pub table: &'a ValueTable,
    pub stack: &'a StackTable,
}
