//! What is made of an image.

/// The file: the image itself, or one in which code is there twice. How many parts of the image's code turn and are entered at several places, how many of the
/// file's, and how many instructions were added.
#[derive(Drop)]
pub struct SplitImage {
    pub file: Vec<u8>,
    pub parts: usize,
    pub left: usize,
    pub instructions: u32,
}
