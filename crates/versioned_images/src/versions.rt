//! What is made.

use loop_versions::{Piece, Site};

/// The file of a versioned image, where its pieces begin, and how many instructions they have.
#[derive(Drop)]
pub struct Made {
    pub file: Vec<u8>,
    pub base: u32,
    pub words: u32,
}

/// An image in which code is there twice. `header` is the address of the word in front of which the guard stands: a loop's header, or the word
/// behind a read. The copy runs where, as the run comes there, the register `larger` less `smaller` is from 0 on and below the limit, as a
/// signed number. So many instructions are added: those of the pieces, the first at the base, to which the sites lead.
#[derive(Drop)]
pub struct Version {
    pub header: u32,
    pub larger: u8,
    pub smaller: u8,
    pub limit: u32,
    pub words: u32,
    pub base: u32,
    pub pieces: Vec<Piece>,
    pub sites: Vec<Site>,
    pub file: Vec<u8>,
}
