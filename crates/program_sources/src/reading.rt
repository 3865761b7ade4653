//! From the bytes of files to what they are.

ghost use Rattle.std.specs.Prelude.{IfOk};
ghost use Rattle.scale_base.specs.Answer.{Answers};
ghost use Rattle.power_model.specs.Numbers.{IsPowerModel};
ghost use Rattle.program_sources.specs.Sources.{original_of, sources_of};

use answer_parts::check_unscaled;
use elf_image::ImageView;
use elf_view::read_image;
use loop_file::{LoopNotes, read_loops};
use machine_file::read_machine;
use power_model::Power;
use scale_base::Stop;
use std::alloc::Global;

/// An image without a keyed segment, and the machine on which it is to run.
#[derive(Drop)]
pub struct OriginalImage<'a> {
    pub power: Power,
    pub view: ImageView<'a>,
}

/// What the three files of a program are: its machine, its image, which has no keyed segment, and the notes of its loops.
#[derive(Drop)]
pub struct Sources<'a> {
    pub power: Power,
    pub view: ImageView<'a>,
    pub notes: LoopNotes,
}

impl<'a> OriginalImage<'a> {
    /// The machine and the image, or the first refusal: of the machine file, of the image, of a keyed segment.
    pub fn read(alloc: Global, image: &'a [u8], machine: &[u8]) -> Result<OriginalImage<'a>, Stop>
        ensures original { Answers (λ o. o) result (original_of image.now machine.now) }
        ensures in_range { IfOk result (λ o. IsPowerModel o.power) }
    {
        let power = read_machine(alloc, machine)?;
        let view = read_image(alloc, image)?;
        check_unscaled(view.keyed())?;
        Ok(OriginalImage { power, view })
    }
}

impl<'a> Sources<'a> {
    /// The machine, the image and the notes, or the first refusal: of the machine file, of the image, of a keyed segment, of the
    /// loop file.
    pub fn read(
        alloc: Global,
        image: &'a [u8],
        machine: &[u8],
        loops: &[u8],
    ) -> Result<Sources<'a>, Stop>
        ensures sources { Answers (λ s. s) result (sources_of image.now machine.now loops.now) }
        ensures in_range { IfOk result (λ s. IsPowerModel s.power) }
    {
        let original = OriginalImage::read(alloc, image, machine)?;
        let notes = read_loops(alloc, loops, &original.view)?;
        Ok(Sources {
            power: original.power,
            view: original.view,
            notes,
        })
    }
}
