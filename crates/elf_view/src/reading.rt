//! The image of a file, read rule by rule.

ghost use Rattle.scale_base.specs.Answer.{Answers};
ghost use Rattle.scale_base.specs.Image.{image_of};

use crate::header::check_header;
use crate::segments::{keyed_of, read_segments};
use crate::symbols::table_of;
use crate::tables::check_tables;
use crate::text::read_text;
use elf_image::ImageView;
use scale_base::Stop;
use std::alloc::Global;

/// The image of a file, or the first rule that the file breaks.
pub fn read_image(alloc: Global, bytes: &[u8]) -> Result<ImageView<'_>, Stop>
    ensures { Answers (λ image. image) result (image_of bytes.now) }
{
    check_header(bytes)?;
    check_tables(bytes)?;
    let segments = read_segments(alloc, bytes)?;
    let text = read_text(alloc, bytes, &segments)?;
    let keyed = keyed_of(&segments);
    let symbols = table_of(bytes);
    Ok(ImageView::of(bytes, segments, keyed, text, symbols))
}
