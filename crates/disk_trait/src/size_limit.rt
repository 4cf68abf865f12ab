//! How large the system lets a file of this process grow.
ghost use Rattle.std.specs.Prelude.{◌≤◌, length, IfOk};

use std::fs::File;
use std::io::Read;
use std::rt::Files;
use std::{io, str};

/// Where the system tells the limits of this process, a line each.
const TABLE: &str = "/proc/self/limits";

/// How the line of the limit on files begins. The limit in force and the greatest one follow.
const NAME: &str = "Max file size";

/// More bytes than the table has.
const ROOM: usize = 4_096;

/// The size in bytes past which the system lets no file of this process grow (`RLIMIT_FSIZE`); the
/// greatest number if there is no such limit, or it can't be read. A write past it ends the process
/// by a signal (SIGXFSZ), so it mustn't be tried.
pub(crate) fn most_bytes<R: Files<File = File>>(rt: &R) -> u64 {
    let mut room = [0; ROOM];
    match read_table(rt, &mut room) {
        Ok(count) => match str::from_utf8(&room[..count]) {
            Ok(table) => limit_in(table).unwrap_or(u64::MAX),
            Err(_) => u64::MAX,
        },
        Err(_) => u64::MAX,
    }
}

/// Reads the table, as far as there is room, and gives how many bytes it has.
fn read_table<R: Files<File = File>>(rt: &R, room: &mut [u8]) -> io::Result<usize>
    ensures { IfOk result (λ count. count ≤ length room.new) }
{
    let mut file = File::open(rt, TABLE)?;
    let mut count = 0;
    for _ in 0..ROOM {
        let more = file.read(&mut room[count..])?;
        if more == 0 {
            break;
        }
        count += more;
    }
    Ok(count)
}

/// The limit on the size of files in bytes that this table of the system's tells
/// (`/proc/self/limits`), if there is one. A step for each byte of it.
pub fn limit_in(table: &str) -> Option<u64> {
    for line in table.lines() {
        if let Some(limits) = line.strip_prefix(NAME) {
            return limits.split_whitespace().next()?.parse().ok();
        }
    }
    None
}
