//! The versions that are made of an image and its loop file.

use crate::programs::{Looping, address_of, constant, down, graph_of, image_of, up, view_of};
use std::alloc::Global;
use std::fmt::Write;
use std::test::Fail;
use versioned_images::{Version, find_versions};

/// A loop file with the program's loop and a bound of 40.
pub fn loops_of(alloc: Global, program: &Looping) -> Result<String, Fail> {
    let header = address_of(program.header);
    let from = address_of(program.from);
    let to = address_of(program.to);
    let mut text = String::new(alloc);
    write!(text, "version = 1\n[[loop]]\nheader = {header}\n")?;
    write!(text, "ranges = [[{from}, {to}]]\nbound = 40\n")?;
    Ok(text)
}

fn versions_of(alloc: Global, program: &Looping) -> Result<Vec<Version>, Fail> {
    let file = image_of(alloc, program)?;
    let loops = loops_of(alloc, program)?;
    if file.len() > 4_194_304 || loops.len() > 1_048_576 {
        return Err("the files are short".into());
    }
    Ok(find_versions(alloc, &file, loops.as_bytes())?)
}

fn push_version(text: &mut String, version: &Version) -> Result<(), Fail> {
    let Version {
        header,
        larger,
        smaller,
        limit,
        words,
        ..
    } = version;
    write!(text, "{header} x{larger}-x{smaller}<{limit} {words} ")?;
    Ok(())
}

// What is told of the versions of a program, whose code is accepted.
fn told(alloc: Global, program: &Looping) -> Result<String, Fail> {
    let mut text = String::new(alloc);
    for version in &versions_of(alloc, program)? {
        let view = view_of(alloc, &version.file)?;
        graph_of(alloc, &view)?;
        push_version(&mut text, version)?;
    }
    Ok(text)
}

#[test]
fn versions_tell_their_guards(rt: HostRuntime) -> Result<(), Fail> {
    let alloc = rt.alloc();
    let down = told(alloc, &down(alloc)?)?;
    assert_eq!(rt; down.as_str(), "65564 x5-x0<23 14 65564 x5-x0<13 14 ");
    let up = told(alloc, &up(alloc, 0)?)?;
    assert_eq!(rt; up.as_str(), "65584 x5-x7<45 15 65584 x5-x7<25 15 ");
    let none = told(alloc, &constant(alloc)?)?;
    assert_eq!(rt; none.as_str(), "");
    Ok(())
}

#[test]
fn refused_files_have_no_versions(rt: HostRuntime) -> Result<(), Fail> {
    let alloc = rt.alloc();
    assert!(rt; find_versions(alloc, b"no image", b"version = 1")?.is_empty());
    let file = image_of(alloc, &down(alloc)?)?;
    if file.len() > 4_194_304 {
        return Err("the file is short".into());
    }
    assert!(rt; find_versions(alloc, &file, b"version = 3")?.is_empty());
    Ok(())
}
