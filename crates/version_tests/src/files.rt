//! Loop files of versions, by those of their originals.

use crate::programs::{Looping, down, image_of, up, view_of};
use crate::versions::loops_of;
use loop_file::{LoopNotes, read_loops};
use run_progress::Silent;
use std::alloc::Global;
use std::fmt::Write;
use std::test::Fail;
use version_loops::{VersionedProgram, version_file};
use versioned_images::{Version, find_versions};

// The notes of the loop file that is made for a version.
fn notes_of(alloc: Global, version: &Version, made: Option<String>) -> Result<LoopNotes, Fail> {
    let Some(text) = made else {
        return Err("the version has a loop file".into());
    };
    let view = view_of(alloc, &version.file)?;
    match read_loops(alloc, text.as_bytes(), &view) {
        Ok(notes) => Ok(notes),
        Err(_) => Err("the loop file is read".into()),
    }
}

fn push_bounds(text: &mut String, notes: &LoopNotes) -> Result<(), Fail> {
    for k in 0..notes.count() {
        let bound = notes.note(k).bound;
        write!(text, "{bound} ")?;
    }
    text.push_str("| ")?;
    Ok(())
}

// The bounds of the loops of each version of a program whose loop has a bound of 40.
fn bounds_of(alloc: Global, program: &Looping) -> Result<String, Fail> {
    let file = image_of(alloc, program)?;
    let loops = loops_of(alloc, program)?;
    if file.len() > 4_194_304 || loops.len() > 1_048_576 {
        return Err("the files are short".into());
    }
    let given = VersionedProgram {
        image: &file,
        loops: loops.as_bytes(),
    };
    let mut text = String::new(alloc);
    for version in find_versions(alloc, &file, loops.as_bytes())? {
        let made = version_file(alloc, &given, &version, &mut Silent)?;
        push_bounds(&mut text, &notes_of(alloc, &version, made)?)?;
    }
    Ok(text)
}

#[test]
fn versions_have_loop_files(rt: HostRuntime) -> Result<(), Fail> {
    let alloc = rt.alloc();
    // The byte may be 0, from where the loop goes round all numbers: nothing is proved of it, so that copies have the bound of the original.
    let down = bounds_of(alloc, &down(alloc)?)?;
    assert_eq!(rt; down.as_str(), "40 40 | 40 40 | ");
    // Up to twice the byte, by two: of the loop 255 is proved, which is more than its bound. The copies run for a difference of at most 44
    // and of at most 24.
    let up = bounds_of(alloc, &up(alloc, 0)?)?;
    assert_eq!(rt; up.as_str(), "40 22 | 40 12 | ");
    Ok(())
}
