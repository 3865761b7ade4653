//! What is proposed.

use loop_versions::{Piece, Site};

/// A version: of a loop, by its number in the tree, or of what runs behind a read, with a number of its own behind those of the loops. The copy runs where
/// `larger` less `smaller` is from 0 on and below the limit where the guard stands. The pieces begin at the base, where a segment of their bytes has room.
#[derive(Drop)]
pub struct Candidate {
    pub number: usize,
    pub larger: u8,
    pub smaller: u8,
    pub limit: u16,
    pub base: u32,
    pub pieces: Vec<Piece>,
    pub sites: Vec<Site>,
}
