//! Where a word goes on.

/// Where a word goes on, by the numbers of words: to the word that it jumps to or calls, and to the next one.
/// A number that is no word's stands for a place outside the text, from which nothing goes on.
#[derive(Clone, Copy)]
pub enum Step {
    /// A return from the function.
    Return,
    /// The run ends here, or the word is refused.
    Stop,
    /// A jump or a branch to a word, if any, and whether the next word may follow.
    On(Option<usize>, bool),
    /// A call of a word, and whether there is a next word, which follows where the callee returns.
    Call(Option<usize>, bool),
}
