//! What a rewriting finds.

use crate::edges::Edge;
use crate::fragments::Fragment;
use crate::summary::Summary;

/// A fragment of code on an edge.
#[derive(Drop)]
pub struct SiteLine {
    pub edge: Edge,
    /// The loop that the fragment counts, by its number from 1; 0 for a switch.
    pub loop_no: u32,
    pub fragment: Fragment,
}

/// All that a rewriting finds: its numbers, and the fragments in ascending order of their edge's address, at one address those of the
/// taken edge first.
#[derive(Drop)]
pub struct ScalePlan {
    pub summary: Summary,
    pub lines: Vec<SiteLine>,
}
