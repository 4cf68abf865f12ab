//! A disk over a file of the operating system, of which nothing is known. It is read and written at
//! places by `FileExt`, and looked at by `MetadataExt`.
ghost use Rattle.std.specs.Prelude.{◌≡◌, [], IfErr};
ghost use Rattle.disk_trait.specs.declared.error.DiskError.TheVariants.{OpenFailed};

use crate::opening::{make_alone, open_alone, open_shared, remove_made};
use crate::size_limit::most_bytes;
use crate::{Disk, DiskError, DiskFacts};
use std::fs::File;
use std::os::unix::fs::{FileExt, MetadataExt};
use std::rt::Files;

/// A disk over a file. It doesn't tell, since no contract can say what a real file does, so that
/// only the kinds of its errors are proved.
///
/// What the layers above are proved for holds of it as far as the operating system and the device
/// do what the rules of [`Disk`] say: a read gives what was last written; a byte that isn't in a
/// range which is being written is never changed, also where a page or a sector of the device holds
/// it; after `fdatasync` has answered that it is done, a crash leaves the file as it reads, its
/// size too; and nobody else writes the file.
///
/// It keeps programs that lock alike to the last rule: the file is locked as long as it is open,
/// for one program that writes or for several that read. Only a plain file is opened, and never on
/// the descriptor of a standard stream.
///
/// A lock keeps nobody from removing, cutting or replacing the file. So before the first write
/// after each sync it looks at the open file: one that has no name any more, or is smaller than it
/// was, is a failed call, since what was written there would be lost.
#[derive(Drop)]
pub struct FileDisk {
    file: File,
    // The file has at least `inside` bytes: as many as were seen, since nobody else writes it.
    inside: u64,
    // The system ends a process by a signal that writes past so many bytes.
    most: u64,
    // Since the last sync the file was seen, with a name and no smaller than it was.
    is_seen: bool,
    // `create` made the file, and no other program has filled it.
    is_made: bool,
}

impl FileDisk {
    /// Opens a file that is there, alone. Refuses with 54 where it can't be opened for reading and
    /// writing, or another program has it open.
    pub fn open<R: Files<File = File>>(rt: &R, path: &str) -> Result<FileDisk, DiskError>
        ensures { IfErr result (λ e. e ≡ OpenFailed) }
    {
        let most = most_bytes(rt);
        match open_alone(rt, path) {
            Ok(file) => Ok(FileDisk::over(file, most, false)),
            Err(_) => Err(DiskError::OpenFailed),
        }
    }

    /// Opens a file that is there beside others that read it. Refuses with 54 where it can't be
    /// opened for reading, or another program has it open for writing. A write of it is refused
    /// with 51.
    pub fn open_to_read<R: Files<File = File>>(rt: &R, path: &str) -> Result<FileDisk, DiskError>
        ensures { IfErr result (λ e. e ≡ OpenFailed) }
    {
        let most = most_bytes(rt);
        match open_shared(rt, path) {
            Ok(file) => Ok(FileDisk::over(file, most, false)),
            Err(_) => Err(DiskError::OpenFailed),
        }
    }

    /// Opens a file alone, or makes an empty one where there is none, and syncs the folder, which
    /// holds its name. Refuses with 54 where one of these fails, or another program has the file
    /// open. A file that it made and can't give is removed, unless another program took it first.
    pub fn create<R: Files<File = File>>(rt: &R, path: &str) -> Result<FileDisk, DiskError>
        ensures { IfErr result (λ e. e ≡ OpenFailed) }
    {
        let most = most_bytes(rt);
        match make_alone(rt, path) {
            Ok((file, is_made)) => Ok(FileDisk::over(file, most, is_made)),
            Err(_) => Err(DiskError::OpenFailed),
        }
    }

    /// Closes the file of this path. Where `create` made it, it is removed first, while no other
    /// program can lock it; a file that was there stays. No refusal is told.
    pub fn discard<R: Files<File = File>>(self, rt: &R, path: &str) {
        if self.is_made {
            remove_made(rt, path, &self.file);
        }
    }

    fn over(file: File, most: u64, is_made: bool) -> FileDisk {
        FileDisk {
            file,
            inside: 0,
            most,
            is_seen: false,
            is_made,
        }
    }

    /// Whether the file has a name and is no smaller than it was. It is asked once between two
    /// syncs: a file without a name is gone once it is closed, whatever was written to it.
    fn is_there(&mut self) -> bool {
        if !self.is_seen {
            self.is_seen = match self.file.metadata() {
                Ok(found) => found.nlink() > 0 && found.len() >= self.inside,
                Err(_) => false,
            };
        }
        self.is_seen
    }

    /// Whether the file has at least `end` bytes. It is asked only where that isn't known. Refuses
    /// with 50 where the file can't tell.
    fn reaches(&mut self, end: u64) -> Result<bool, DiskError> {
        Ok(end <= self.inside || end <= self.size()?)
    }
}

impl DiskFacts for FileDisk {
    ghost tells = { λ _. ⊥ };

    ghost content = { λ _. [] };

    ghost survives = { λ _ _. ⊥ };

    ghost time = { λ _. 0 };

    ghost left_since = { λ _ _ _. ⊥ };

    ghost writes = { λ _. 0 };

    ghost syncs = { λ _. 0 };

    ghost failures = { λ _. 0 };
}

impl Disk for FileDisk {
    fn size(&mut self) -> Result<u64, DiskError> {
        match self.file.metadata() {
            // One that is smaller than it was has lost bytes.
            Ok(found) if found.len() >= self.inside => {
                self.inside = found.len();
                Ok(self.inside)
            }
            _ => Err(DiskError::ReadFailed),
        }
    }

    fn read_at(&mut self, pos: u64, bytes: &mut [u8]) -> Result<(), DiskError> {
        match self.reaches(pos.saturating_add(bytes.len() as u64)) {
            Ok(true) => {}
            Ok(false) => return Err(DiskError::PastEnd),
            Err(_) => return Err(DiskError::ReadFailed),
        }
        match self.file.read_exact_at(bytes, pos) {
            Ok(()) => Ok(()),
            Err(_) => Err(DiskError::ReadFailed),
        }
    }

    fn write_at(&mut self, pos: u64, bytes: &[u8]) -> Result<(), DiskError> {
        let end = pos.saturating_add(bytes.len() as u64);
        if end > self.most || !self.is_there() {
            return Err(DiskError::WriteFailed);
        }
        match self.reaches(pos) {
            Ok(true) => {}
            Ok(false) => return Err(DiskError::PastEnd),
            Err(_) => return Err(DiskError::WriteFailed),
        }
        match self.file.write_all_at(bytes, pos) {
            Ok(()) => {
                self.inside = self.inside.max(end);
                Ok(())
            }
            Err(_) => Err(DiskError::WriteFailed),
        }
    }

    fn sync(&mut self) -> Result<(), DiskError> {
        self.is_seen = false;
        match self.file.sync_data() {
            Ok(()) => Ok(()),
            Err(_) => Err(DiskError::SyncFailed),
        }
    }

    ghost lawful = { λ _ never. absurd never };
}
