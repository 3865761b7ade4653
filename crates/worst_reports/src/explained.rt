//! What is told of where the worst cycles of a program go.

use worst_lines::Line;

/// The worst cycles of a program, and a line for each function that is called and each loop that is entered on a walk that takes them: the most own cycles
/// first. None where no such walk is found, which never was seen, and which isn't proved never to be.
#[derive(Drop)]
pub struct Explained {
    pub worst: u64,
    pub lines: Option<Vec<Line>>,
}
