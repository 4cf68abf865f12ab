//! The calls of `Disk` over a real file, where the system limits how large a file may grow.
use crate::test_disks::number_of;
use crate::test_limits::Limited;
use disk_trait::{Disk, FileDisk};
use std::fs;
use std::test::Fail;

/// The lines of the table that stand before the one of the limit on files.
const HEAD: &str =
    "Limit                     Soft Limit           Hard Limit           Units     \n\
    Max cpu time              60                   unlimited            seconds   \n";

const NONE: &str =
    "Max file size             unlimited            unlimited            bytes     \n";

const SOME: &str =
    "Max file size             8192                 16384                bytes     \n";

/// What a disk answers to 8,192 bytes, and to one more, that was made where the system told this
/// table: 0, or the number of its refusal.
fn answers(rt: &HostRuntime, table: &str) -> Result<[u8; 2], Fail> {
    let (told, path) = ("told.limits", "limited.disk");
    fs::write(rt, told, table)?;
    let mut disk = FileDisk::create(&Limited(rt, told), path)?;
    let answers = [
        number_of(disk.write_at(0, &[1; 8_192])),
        number_of(disk.write_at(8_192, &[1])),
    ];
    disk.discard(rt, path);
    fs::remove_file(rt, told)?;
    Ok(answers)
}

/// The line of the limit on files, and what a disk answers.
const LINES: [(&str, [u8; 2]); 3] = [(NONE, [0, 0]), (SOME, [0, 51]), ("", [0, 0])];

#[test]
fn a_limit_on_files_is_read_from_the_table(rt: HostRuntime) -> Result<(), Fail> {
    for (line, due) in &LINES {
        let table = format!(in rt.alloc(); "{HEAD}{line}")?;
        assert_eq!(rt; answers(&rt, &table)?, *due, "{line}");
    }
    Ok(())
}
