//! Laws of tunings: two of the same files agree, and what is stored of one is safe.

ghost use Rattle.gain_tuner.specs.Agreeing.{TuningsAgree};
ghost use Rattle.gain_tuner.specs.Safe.{TunedImagesAreSafe};

/// Two answers that `tune` may give for the same files and inputs are the same, but for the cycle that a refusal names.
pub fn tunings_agree()
    ensures { TuningsAgree }
{}

/// What `tune` stores is safe, and saves: on every input on which the original run exits and keeps the loops' bounds and the return
/// addresses, its run gives the same output and the same status, ends by the deadline, never raises its level, takes no more energy than its
/// own cycles at its starting level, and adds at most the printed number of cycles; and on the inputs that count its runs take no more energy
/// than those of the image that runs at one level.
pub fn tuned_images_are_safe()
    ensures { TunedImagesAreSafe }
{}
