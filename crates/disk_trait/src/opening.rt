//! Plain files of the operating system, each opened against other programs.
//!
//! A lock is the system's advisory one on the whole file: it binds the programs that lock alike,
//! and goes when the file is closed, however its program ends.

use std::fs::{File, Metadata, OpenOptions};
use std::io::{Error, ErrorKind};
use std::os::fd::AsRawFd;
use std::os::unix::fs::MetadataExt;
use std::path::Path;
use std::rt::Files;
use std::{fs, io};

/// Standard input, output and error have the descriptors 0 to 2.
const LAST_STREAM: i32 = 2;

/// Opens a file that is there, for reading and writing, where no other has it open.
pub(crate) fn open_alone<R: Files<File = File>>(rt: &R, path: &str) -> io::Result<File> {
    let file = open_plain(rt, path, OpenOptions::new().read(true).write(true))?;
    file.try_lock()?;
    check_place(rt, path, &file)?;
    Ok(file)
}

/// Opens a file that is there, for reading, where no other has it open for writing.
pub(crate) fn open_shared<R: Files<File = File>>(rt: &R, path: &str) -> io::Result<File> {
    let file = open_plain(rt, path, OpenOptions::new().read(true))?;
    file.try_lock_shared()?;
    check_place(rt, path, &file)?;
    Ok(file)
}

/// Makes an empty file where there is none, else opens the one that is there, and syncs the folder,
/// which holds its name. With the file comes whether it is this one's: made, and still empty when
/// it was locked. One that is, and then can't be kept, is removed.
pub(crate) fn make_alone<R: Files<File = File>>(rt: &R, path: &str) -> io::Result<(File, bool)> {
    match File::create_new(rt, path) {
        Ok(file) => {
            let kept = keep(rt, path, &file);
            // Another program may have locked it first, and may have made its store in it.
            let is_own = is_empty(&file);
            match kept {
                Ok(()) => Ok((file, is_own)),
                Err(error) => {
                    if is_own && error.kind() != ErrorKind::WouldBlock {
                        remove_made(rt, path, &file);
                    }
                    Err(error)
                }
            }
        }
        Err(error) if error.kind() == ErrorKind::AlreadyExists => {
            let file = open_alone(rt, path)?;
            sync_folder(rt, path)?;
            Ok((file, false))
        }
        Err(error) => Err(error),
    }
}

/// Removes a file that was made and is still locked, and syncs the folder. What fails here isn't
/// told: it comes behind a fault that is.
pub(crate) fn remove_made<R: Files<File = File>>(rt: &R, path: &str, file: &File) {
    if is_at(rt, path, file) && fs::remove_file(rt, path).is_ok() {
        let _ = sync_folder(rt, path);
    }
}

/// Opens a file, but no folder, pipe or device: a pipe would wait for its other end, and a device
/// shows no bytes, as if nothing were there to write over.
fn open_plain<R: Files<File = File>>(
    rt: &R,
    path: &str,
    options: &OpenOptions,
) -> io::Result<File> {
    if !fs::metadata(rt, path)?.is_file() {
        return Err(Error::from(ErrorKind::InvalidInput));
    }
    options.open(rt, path)
}

/// Locks a file that was made, and settles its name.
fn keep<R: Files<File = File>>(rt: &R, path: &str, file: &File) -> io::Result<()> {
    file.try_lock()?;
    check_place(rt, path, file)?;
    sync_folder(rt, path)
}

/// Refuses a file that has the descriptor of a standard stream, since answers would be written into
/// it. Refuses one that lost its name before it was locked: who removed it had the lock until then.
fn check_place<R: Files<File = File>>(rt: &R, path: &str, file: &File) -> io::Result<()> {
    if file.as_raw_fd() <= LAST_STREAM || !is_at(rt, path, file) {
        return Err(Error::from(ErrorKind::InvalidInput));
    }
    Ok(())
}

/// Whether this is the plain file that the path names now.
fn is_at<R: Files<File = File>>(rt: &R, path: &str, file: &File) -> bool {
    match (fs::metadata(rt, path), file.metadata()) {
        (Ok(named), Ok(opened)) => opened.is_file() && is_same(&named, &opened),
        _ => false,
    }
}

/// Whether the file is known to have no bytes.
fn is_empty(file: &File) -> bool {
    matches!(file.metadata(), Ok(found) if found.len() == 0)
}

/// Whether both are of one file.
fn is_same(one: &Metadata, other: &Metadata) -> bool {
    one.dev() == other.dev() && one.ino() == other.ino()
}

/// Settles the names in the folder that holds a file.
fn sync_folder<R: Files<File = File>>(rt: &R, path: &str) -> io::Result<()> {
    let folder = match Path::new(path).parent() {
        Some(folder) if !folder.as_str().is_empty() => folder,
        _ => Path::new("."),
    };
    File::open(rt, folder)?.sync_all()
}
