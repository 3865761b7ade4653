//! What is counted along a walk that takes the worst cycles.

/// What is counted along a walk through a program that takes its worst cycles.
#[derive(Drop)]
pub struct WalkCounts {
    /// By edge, how often it is taken.
    pub taken: Vec<u64>,
    /// By function, how often it is called: the program's once more than over edges.
    pub calls: Vec<u64>,
    /// By loop, how often it is entered from outside.
    pub entries: Vec<u64>,
    /// By loop, how many back edges are taken.
    pub turns: Vec<u64>,
    /// By function, the cycles of its own edges that are in no loop.
    pub function_own: Vec<u64>,
    /// By loop, the cycles of its own edges that are in no loop within it.
    pub loop_own: Vec<u64>,
}
