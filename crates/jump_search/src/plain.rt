//! The text of a jump file without comments.

use crate::rounds::{FoundJump, FoundJumps};
use scale_base::NoMemory;
use scale_report::Address;
use std::alloc::{AllocError, Global};
use std::fmt::Write;

/// Adds what the file has of a jump.
pub fn push_jump(text: &mut String, jump: &FoundJump) -> Result<(), AllocError> {
    let at = Address(jump.at);
    write!(text, "[[jump]]\nat = {at}\ntargets = [")?;
    for (k, target) in jump.targets.iter().enumerate() {
        if k > 0 {
            text.push_str(", ")?;
        }
        let address = Address(*target);
        write!(text, "{address}")?;
    }
    text.push_str("]\n")
}

/// The file without comments.
pub fn plain_text(alloc: Global, found: &FoundJumps) -> Result<String, NoMemory> {
    let mut text = String::from_str(alloc, "version = 1\n")?;
    for jump in &found.jumps {
        push_jump(&mut text, jump)?;
    }
    Ok(text)
}
