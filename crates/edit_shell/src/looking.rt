//! Why a file couldn't be opened, as far as it shows afterwards.

use std::fs::{File, OpenOptions};
use std::io::{Error, ErrorKind};
use std::path::Path;
use std::rt::Files;
use std::{fs, io};
use store_orders::Sentence;

/// What a file is opened for.
#[derive(Clone, Copy, Debug, Drop, PartialEq, Eq)]
pub enum Purpose {
    Reading,
    Writing,
    /// To make it where it isn't there.
    Making,
}

/// Why a file couldn't be opened. It is looked at anew: where that tells nothing, since it is
/// another one or free by now, the sentence is that of any such refusal.
pub fn why_not_opened<R: Files<File = File>>(rt: &R, path: &str, purpose: Purpose) -> Sentence {
    match fs::metadata(rt, path) {
        Ok(found) if found.is_dir() => Sentence::Folder,
        Ok(found) if !found.is_file() => Sentence::NotPlain,
        Ok(_) => match take(rt, path, purpose) {
            Ok(()) => Sentence::OpenFailed,
            Err(error) => why(&error),
        },
        Err(error) if error.kind() == ErrorKind::NotFound && purpose == Purpose::Making => {
            why_not_made(rt, path)
        }
        Err(error) => why(&error),
    }
}

/// Takes a plain file for a moment.
fn take<R: Files<File = File>>(rt: &R, path: &str, purpose: Purpose) -> io::Result<()> {
    if purpose == Purpose::Reading {
        File::open(rt, path)?.try_lock_shared()?;
    } else {
        let file = OpenOptions::new().read(true).write(true).open(rt, path)?;
        file.try_lock()?;
    }
    Ok(())
}

/// The cause that an error tells.
fn why(error: &Error) -> Sentence {
    match error.kind() {
        ErrorKind::NotFound | ErrorKind::NotADirectory => Sentence::NotThere,
        ErrorKind::PermissionDenied | ErrorKind::ReadOnlyFilesystem => Sentence::NoRight,
        ErrorKind::WouldBlock => Sentence::Held,
        _ => Sentence::OpenFailed,
    }
}

/// Why a file couldn't be made that isn't there.
fn why_not_made<R: Files<File = File>>(rt: &R, path: &str) -> Sentence {
    let folder = match Path::new(path).parent() {
        Some(folder) if !folder.as_str().is_empty() => folder,
        _ => Path::new("."),
    };
    match fs::metadata(rt, folder) {
        Ok(_) => Sentence::NotMade,
        Err(_) => Sentence::NoFolder,
    }
}
