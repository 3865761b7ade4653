//! What an image is fitted to.

ghost use Rattle.std.specs.Prelude.{◌≤◌, length};
ghost use Rattle.std.specs.List.{All};
ghost use Rattle.scale_base.specs.declared.limits.TheConstants.{FILE_LIMIT};
ghost use Rattle.version_fits.specs.Given.{given_bytes};

/// What an image is fitted to: a machine and inputs, how many bytes an input has at most, where that is told, and the loop file of the program, where
/// one is given. Where none is, loop files are drafted.
#[derive(Clone, Copy)]
pub struct FitGoal<'a> {
    pub machine: &'a [u8],
    pub inputs: &'a [Vec<u8>],
    pub most: Option<u32>,
    pub given: Option<&'a [u8]>,
    ghost short: { length machine.now ≤ FILE_LIMIT },
    ghost few: { length inputs.now ≤ 64 },
    ghost inputs_short: { All (λ input. length input.items ≤ FILE_LIMIT) inputs.now },
    ghost given_short: { length (given_bytes given) ≤ FILE_LIMIT },
}
