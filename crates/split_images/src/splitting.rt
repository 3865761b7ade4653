//! The image whose parts that are entered at several places are split.

ghost use Rattle.std.specs.Prelude.{◌≡◌, None, IfOk, IfSome};
ghost use Rattle.scale_base.specs.Answer.{AnswersBy};
ghost use Rattle.code_text.specs.Text.{text_of};
ghost use Rattle.flow_graph.specs.FlowGraph.{IsGraphOf};
ghost use Rattle.split_images.specs.Splits.{HasInstructions, IsImageSplit, IsSplitOf, Splits, split_view};

use crate::split::SplitImage;
use code_graph::build_graph;
use elf_image::ImageView;
use elf_view::read_image;
use flow_graph::CodeGraph;
use loop_drafts::{FoundLoops, find_loops};
use scale_base::{NoMemory, Refusal, Stop};
use std::alloc::Global;
use version_search::find_split;
use versioned_images::{Made, versioned};

// The addresses of the headers of loops.
fn headers_of(alloc: Global, found: &FoundLoops) -> Result<Vec<u32>, NoMemory> {
    let mut headers = Vec::new(alloc);
    for one in &found.loops {
        headers.push(one.header)?;
    }
    Ok(headers)
}

// The entries of the parts that are no loops.
fn entries_of(alloc: Global, found: &FoundLoops) -> Result<Vec<Vec<u32>>, NoMemory> {
    let mut entries = Vec::new(alloc);
    for part in &found.aside {
        entries.push(part.entries.to_vec(alloc)?)?;
    }
    Ok(entries)
}

// How many parts that are no loops a file has, or why that isn't known.
fn parts_in(alloc: Global, file: &[u8]) -> Result<usize, Stop> {
    let view = read_image(alloc, file)?;
    let graph = build_graph(alloc, &view)?;
    let found = find_loops(alloc, &graph)?;
    Ok(found.aside.len())
}

// The same; none where the file is refused.
fn count_parts(alloc: Global, file: &[u8]) -> Result<Option<usize>, NoMemory> {
    match parts_in(alloc, file) {
        Ok(count) => Ok(Some(count)),
        Err(Stop::Refused(_)) => Ok(None),
        Err(Stop::Memory) => Err(NoMemory),
    }
}

// The file in which such parts are split, if one is.
fn made_of(
    alloc: Global,
    view: &ImageView<'_>,
    graph: &CodeGraph,
    found: &FoundLoops,
) -> Result<Option<Made>, NoMemory>
    ensures { IfOk result (λ given. IfSome given (λ made. HasInstructions view.now made.file.items made.words)) }
{
    let headers = headers_of(alloc, found)?;
    let entries = entries_of(alloc, found)?;
    match find_split(alloc, view, graph, &headers, &entries)? {
        Some(split) => versioned(alloc, view, &split.pieces, &split.sites),
        None => Ok(None),
    }
}

// The image itself.
fn unsplit(alloc: Global, view: &ImageView<'_>, parts: usize) -> Result<SplitImage, NoMemory>
    ensures { IfOk result (λ split. IsSplitOf view.now split) }
{
    Ok(SplitImage {
        file: view.file().to_vec(alloc)?,
        parts,
        left: parts,
        instructions: 0,
    })
}

// The image of a graph. Where its code were refused once it is split, the image itself: that isn't known to happen.
fn split_graph(
    alloc: Global,
    view: &ImageView<'_>,
    graph: &CodeGraph,
) -> Result<SplitImage, NoMemory>
    ensures { IfOk result (λ split. IsSplitOf view.now split) }
{
    let found = find_loops(alloc, graph)?;
    let parts = found.aside.len();
    let Some(made) = made_of(alloc, view, graph, &found)? else {
        return unsplit(alloc, view, parts);
    };
    let Some(left) = count_parts(alloc, &made.file)? else {
        return unsplit(alloc, view, parts);
    };
    Ok(SplitImage {
        file: made.file,
        parts,
        left,
        instructions: made.words,
    })
}

// The image without a keyed segment.
fn split_plain(alloc: Global, view: &ImageView<'_>) -> Result<SplitImage, Stop>
    requires { view.now.keyed_segment ≡ None }
    ensures { AnswersBy split_view result (IsImageSplit view.now) }
{
    let graph = build_graph(alloc, view)?;
    Ok(split_graph(alloc, view, &graph)?)
}

// The image of a view.
fn split_read(alloc: Global, view: &ImageView<'_>) -> Result<SplitImage, Stop>
    ensures { AnswersBy split_view result (IsImageSplit view.now) }
{
    match view.keyed() {
        Some(_) => Err(Stop::Refused(Refusal::AlreadyScaled)),
        None => split_plain(alloc, view),
    }
}

/// The image in which parts of the code that turn and are entered at several places are enterable at one: for each other place the code that runs from there is
/// copied. The image itself where there is no such part, or none that can be split. Or the first refusal: of the image, of a keyed segment, or of the
/// reached code.
///
/// Which parts are split isn't promised, nor the counts of parts. A part can be left where a word that leads to it, or one of its own, can't be moved.
pub fn split_image(alloc: Global, image: &[u8]) -> Result<SplitImage, Stop>
    ensures { AnswersBy split_view result (Splits image.now) }
{
    let view = read_image(alloc, image)?;
    split_read(alloc, &view)
}
