//! What is proved of noted jumps.

use scale_base::NoMemory;
use std::alloc::Global;

/// By number of a note, whether it is proved that runs keep to its list, and whether it is proved that the returns of the lowered image go back. Nothing is
/// proved of notes behind the last flag.
#[derive(Drop)]
pub struct JumpProof {
    pub jumps: Vec<bool>,
    pub returns: bool,
}

impl JumpProof {
    ghost use Rattle.std.specs.Prelude.{◌≡◌, [], false};
    ghost use Rattle.jump_proofs.specs.Proved.{proved_count};

    /// Nothing is proved.
    pub fn none(alloc: Global) -> JumpProof
        ensures jumps { result.jumps.items ≡ [] }
        ensures returns { result.returns ≡ false }
    {
        JumpProof {
            jumps: Vec::new(alloc),
            returns: false,
        }
    }

    /// Whether a note is proved.
    pub fn has(&self, k: usize) -> bool {
        self.jumps.get(k).copied().unwrap_or(false)
    }

    /// How many notes are proved.
    pub fn count(&self) -> usize
        ensures { result ≡ proved_count self.now }
    {
        self.jumps.iter().filter(|flag| **flag).count()
    }

    /// Whether another proof is of the same notes.
    pub fn is_same(&self, other: &JumpProof) -> bool {
        self.returns == other.returns && self.jumps == other.jumps
    }
}
