//! What `lower` makes of an image and a list of jumps. Other rows are data, `lower.txt` of the first program's `cases`.

use crate::fixtures::*;
use image_lower::lower;
use scale_base::{Lowered, Stop};
use scale_report::lowered_text;
use std::alloc::Global;
use std::test::Fail;

/// A jump through x5 at 0x10008, and two exits that it may lead to.
const TABLE_JUMP: [u32; 8] = [
    0x000102B7, 0x01428293, 0x00028067, 0x00100513, 0x0080006F, 0x00200513, 0x05D00893, 0x00000073,
];

/// What `lower` makes of files that the program would load.
fn lowered(alloc: Global, image: &[u8], jumps: &str) -> Result<(Vec<u8>, Lowered), Stop> {
    if image.len() > 4_194_304 {
        return Err(Stop::Memory);
    }
    lower(alloc, image, jumps.as_bytes())
}

/// What is counted of the lowered image of some words.
fn counts_of(alloc: Global, words: &[u32], jumps: &str) -> Result<String, Fail> {
    let image = plain_image(alloc, words)?;
    match lowered(alloc, &image, jumps) {
        Ok((_, counts)) => Ok(lowered_text(alloc, &counts)?),
        Err(_) => Err("a refusal".into()),
    }
}

#[test]
fn what_stands_for_a_jump_through_a_table(rt: HostRuntime) -> Result<(), Fail> {
    let jumps = "version = 1\n[[jump]]\nat = 0x10008\ntargets = [0x1000C, 0x10014]\n";
    let lines = "pairs 0\njumps 1\nblock bytes 32\ndepth 1\n";
    expect_text(&rt, 0, counts_of(rt.alloc(), &TABLE_JUMP, jumps), lines)
}
