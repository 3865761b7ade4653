//! Files of the system that are stored whole or not at all: the bytes are written into a new file of the same folder, which then takes the
//! name. POSIX.1-2017, `rename`: a name that is taken refers to the old file or to the new one at each moment.

use std::alloc::Global;
use std::fs::{self, Files, OpenFile, OpenOptions, Permissions};
use std::io::{self, Write};

/// How many names are tried for the new file: one that a killed run has left behind is not written over.
const TRIES: u32 = 1000;

/// A name in the folder of a file.
fn beside(alloc: Global, name: &str, number: u32) -> io::Result<String> {
    let made = match name.rsplit_once('/') {
        Some((folder, _)) => format!(in alloc; "{folder}/.scale-{number}")?,
        None => format!(in alloc; ".scale-{number}")?,
    };
    Ok(made)
}

/// Makes an empty file in the folder of another one.
fn make_beside<R: Files>(rt: &R, alloc: Global, name: &str) -> io::Result<(String, R::File)> {
    for number in 0..TRIES {
        let made = beside(alloc, name, number)?;
        let opened = OpenOptions::new()
            .write(true)
            .create_new(true)
            .open(rt, made.as_str());
        match opened {
            Ok(file) => return Ok((made, file)),
            Err(error) if error.kind() == io::ErrorKind::AlreadyExists => {}
            Err(error) => return Err(error),
        }
    }
    Err(io::Error::from(io::ErrorKind::AlreadyExists))
}

/// Writes bytes into a new file, and waits until they are on the disk.
fn fill<F: Write + OpenFile>(
    file: &mut F,
    bytes: &[u8],
    kept: Option<Permissions>,
) -> io::Result<()> {
    if let Some(permissions) = kept {
        file.set_permissions(permissions)?;
    }
    file.write_all(bytes)?;
    file.sync_all()
}

/// Has a new file of these bytes take the name. Where that fails, the new file is removed.
fn replace<R: Files>(
    rt: &R,
    alloc: Global,
    name: &str,
    bytes: &[u8],
    kept: Option<Permissions>,
) -> io::Result<()> {
    let (made, mut file) = make_beside(rt, alloc, name)?;
    let done = match fill(&mut file, bytes, kept) {
        Ok(()) => fs::rename(rt, made.as_str(), name),
        Err(error) => Err(error),
    };
    if done.is_err() {
        let _ = fs::remove_file(rt, made.as_str());
    }
    done
}

/// The permissions of a regular file that may be written.
fn permissions_of<R: Files>(rt: &R, name: &str) -> io::Result<Permissions> {
    let file = OpenOptions::new().write(true).open(rt, name)?;
    Ok(file.metadata()?.permissions())
}

/// Makes a file of these bytes, in the place of one of that name, whose permissions it keeps. A name that is no regular file's, as that of a
/// device, a pipe or a symbolic link, is written through. Where it fails, a regular file is as it was.
pub fn store_whole<R: Files>(rt: &R, alloc: Global, name: &str, bytes: &[u8]) -> io::Result<()> {
    match fs::symlink_metadata(rt, name) {
        Ok(old) if old.is_file() => {
            let kept = permissions_of(rt, name)?;
            replace(rt, alloc, name, bytes, Some(kept))
        }
        Ok(_) => fs::write(rt, name, bytes),
        Err(error) if error.kind() == io::ErrorKind::NotFound => {
            replace(rt, alloc, name, bytes, None)
        }
        Err(error) => Err(error),
    }
}
