//! The files of a program that is scaled.

ghost use Rattle.std.specs.Prelude.{◌≡◌, ◌≤◌, [], ◌∷◌, length};
ghost use Rattle.std.specs.List.{AllZip};
ghost use Rattle.scale_base.specs.declared.limits.TheConstants.{FILE_LIMIT, IMAGE_LIMIT};

use scale_base::{FILE_LIMIT, IMAGE_LIMIT};

/// The bytes of an image, a machine file and a loop file, each within its limit.
#[derive(Clone, Copy)]
pub struct ProgramFiles<'a> {
    pub image: &'a [u8],
    pub machine: &'a [u8],
    pub loops: &'a [u8],
    ghost short_image: { length image.now ≤ IMAGE_LIMIT },
    ghost short_machine: { length machine.now ≤ FILE_LIMIT },
    ghost short_loops: { length loops.now ≤ FILE_LIMIT },
}

impl<'a> ProgramFiles<'a> {
    ghost use Rattle.host_runs.specs.Views.{files_view};

    /// The files, in this order.
    pub fn of(files: &'a [Vec<u8>]) -> ProgramFiles<'a>
        requires { AllZip (λ limit file. length file ≤ limit) (IMAGE_LIMIT ∷ FILE_LIMIT ∷ FILE_LIMIT ∷ []) (files_view files.now) }
        ensures { files_view files.now ≡ result.image.now ∷ result.machine.now ∷ result.loops.now ∷ [] }
    {
        ProgramFiles {
            image: &files[0],
            machine: &files[1],
            loops: &files[2],
        }
    }
}
