//! The files of a command: of a program with another image, and inputs beside them.

ghost use Rattle.std.specs.Prelude.{◌≡◌, ◌≤◌, [], ◌∷◌, length};
ghost use Rattle.std.specs.List.{All, AllZip};
ghost use Rattle.scale_base.specs.declared.limits.TheConstants.{FILE_LIMIT, IMAGE_LIMIT, STORED_LIMIT};
ghost use Rattle.scale_tool.specs.Answer.{AreBytes};

use scale_base::{FILE_LIMIT, IMAGE_LIMIT, STORED_LIMIT};

/// The bytes of an image, of another image that goes with it, and of a machine file and a loop file, each within its limit.
#[derive(Clone, Copy)]
pub struct PairFiles<'a> {
    pub image: &'a [u8],
    pub other: &'a [u8],
    pub machine: &'a [u8],
    pub loops: &'a [u8],
    ghost short_image: { length image.now ≤ IMAGE_LIMIT },
    ghost short_other: { length other.now ≤ STORED_LIMIT },
    ghost short_machine: { length machine.now ≤ FILE_LIMIT },
    ghost short_loops: { length loops.now ≤ FILE_LIMIT },
    ghost bytes: { AreBytes other.now },
}

impl<'a> PairFiles<'a> {
    ghost use Rattle.host_runs.specs.Views.{files_view};

    /// The files, in this order.
    pub fn of(files: &'a [Vec<u8>]) -> PairFiles<'a>
        requires { AllZip (λ limit file. length file ≤ limit) (IMAGE_LIMIT ∷ STORED_LIMIT ∷ FILE_LIMIT ∷ FILE_LIMIT ∷ []) (files_view files.now) }
        ensures { files_view files.now ≡ result.image.now ∷ result.other.now ∷ result.machine.now ∷ result.loops.now ∷ [] }
    {
        PairFiles::new(&files[0], &files[1], &files[2], &files[3])
    }

    // That the numbers of a slice of bytes are bytes is known of a parameter alone.
    fn new(image: &'a [u8], other: &'a [u8], machine: &'a [u8], loops: &'a [u8]) -> PairFiles<'a>
        requires image { length image.now ≤ IMAGE_LIMIT }
        requires other { length other.now ≤ STORED_LIMIT }
        requires machine { length machine.now ≤ FILE_LIMIT }
        requires loops { length loops.now ≤ FILE_LIMIT }
        ensures { (result.image.now ≡ image.now) × (result.other.now ≡ other.now) × (result.machine.now ≡ machine.now) ×
            (result.loops.now ≡ loops.now) }
    {
        PairFiles {
            image,
            other,
            machine,
            loops,
        }
    }
}

/// The bytes of 1 to 64 inputs, each within its limit.
#[derive(Clone, Copy)]
pub struct Inputs<'a> {
    pub items: &'a [Vec<u8>],
    ghost some: { 1 ≤ length items.now },
    ghost few: { length items.now ≤ 64 },
    ghost short: { All (λ input. length input.items ≤ FILE_LIMIT) items.now },
}
