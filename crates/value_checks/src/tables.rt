//! Tables of values.

use wrapped_intervals::{Arc, Measure};

/// What is known of a sum of two registers at a node: the number of its form in the table, and its interval.
#[derive(Clone, Copy, PartialEq, Eq)]
pub struct Line {
    pub form: usize,
    pub arc: Arc,
}

/// Intervals of the registers at each node, before its instruction; by function, at its returns; and whether a run may come to a node. Sums
/// and differences of two registers of x1 to x31, by number, and by node, before its instruction, what is known of some of them: of the rest,
/// nothing.
#[derive(Drop)]
pub struct ValueTable {
    pub live: Vec<bool>,
    pub rows: Vec<[Option<Arc>; 32]>,
    pub exits: Vec<[Option<Arc>; 32]>,
    pub forms: Vec<Measure>,
    pub lines: Vec<Vec<Line>>,
}
