//! The file of a disk in memory: as reads give it, as the last sync settled it, and what was
//! written since.
ghost use Rattle.std.specs.Prelude.{◌≡◌, ◌+◌, ◌<◌, ◌≤◌, [], All, IfOk, length};
ghost use Rattle.std.specs.Prelude.{vec_len, vec_capacity};
ghost use Rattle.disk_trait.specs.File.{overwritten, part};
ghost use Rattle.disk_trait.specs.Survivors.{IsSameOutside, MayLeave};
ghost use Rattle.disk_trait.specs.Crash.{filled, left, left_whole};

use std::alloc::{AllocError, Global};

/// What a crash makes of every byte that no sync has settled.
#[derive(Clone, Copy, Debug, PartialEq, Eq)]
pub enum Fate {
    /// It is the settled byte, and past the settled end a zero.
    Old,
    /// It is the byte that was written last.
    New,
    /// It is this byte.
    Fill(u8),
}

#[derive(Drop)]
pub(crate) struct Medium {
    bytes: Vec<u8>,
    settled: Vec<u8>,
    /// The ranges written since the last sync, each by its offset and its length.
    unsettled: Vec<(usize, usize)>,
    /// The most bytes that the file may have.
    room: usize,
    ghost reads_survive: { MayLeave (length bytes.items) settled.items unsettled.items
        bytes.items },
    ghost ranges_within: { All (λ range. range.0 + range.1 ≤ length bytes.items) unsettled.items },
    ghost within_room: { length bytes.items ≤ room },
    ghost room_to_write: { room ≤ vec_capacity bytes },
    ghost room_to_settle: { room ≤ vec_capacity settled },
}

impl Medium {
    ghost use Rattle.disk_trait.specs.Medium.{HasWritten};

    /// An empty file, with all the memory for `room` bytes and for `ranges` writes between two
    /// syncs.
    pub(crate) fn new(alloc: Global, room: usize, ranges: usize) -> Result<Medium, AllocError>
        ensures bytes { IfOk result (λ medium. medium.bytes.items ≡ []) }
        ensures settled { IfOk result (λ medium. medium.settled.items ≡ []) }
        ensures unsettled { IfOk result (λ medium. medium.unsettled.items ≡ []) }
        ensures room { IfOk result (λ medium. medium.room ≡ room) }
        ensures ranges { IfOk result (λ medium. ranges ≤ vec_capacity medium.unsettled) }
    {
        Ok(Medium {
            bytes: Vec::with_capacity(alloc, room)?,
            settled: Vec::with_capacity(alloc, room)?,
            unsettled: Vec::with_capacity(alloc, ranges)?,
            room,
        })
    }

    pub(crate) fn len(&self) -> usize
        ensures { result ≡ length self.now.bytes.items }
    {
        self.bytes.len()
    }

    /// The most bytes that the file may have.
    pub(crate) fn room(&self) -> usize
        ensures { result ≡ self.now.room }
    {
        self.room
    }

    /// Fills `bytes` from offset `at` on.
    pub(crate) fn read(&self, at: usize, bytes: &mut [u8])
        requires { at + length bytes.old ≤ length self.now.bytes.items }
        ensures { bytes.new ≡ part self.now.bytes.items at (length bytes.old) }
    {
        bytes.copy_from_slice(&self.bytes[at..at + bytes.len()]);
    }

    /// Writes `bytes` at offset `at`.
    pub(crate) fn write(&mut self, at: usize, bytes: &[u8])
        requires within { at ≤ length self.old.bytes.items }
        requires room { at + length bytes.now ≤ self.old.room }
        requires range { vec_len self.old.unsettled < vec_capacity self.old.unsettled }
        ensures written { HasWritten at bytes.now self.old self.new }
        ensures room_stays { self.new.room ≡ self.old.room }
        ensures ranges { vec_capacity self.old.unsettled ≤ vec_capacity self.new.unsettled }
    {
        overwrite(&mut self.bytes, at, bytes);
        self.unsettled.push((at, bytes.len())).unwrap();
    }

    /// Cuts the power: what was not settled meets its fate, and what is left is settled.
    pub(crate) fn crash(&mut self, fate: Fate, grown: bool)
        ensures left { self.new.bytes.items
            ≡ left fate grown self.old.bytes.items self.old.settled.items self.old.unsettled.items }
        ensures settled { self.new.settled.items ≡ self.new.bytes.items }
        ensures unsettled { self.new.unsettled.items ≡ [] }
        ensures room { self.new.room ≡ self.old.room }
        ensures ranges { vec_capacity self.new.unsettled ≡ vec_capacity self.old.unsettled }
    {
        let size = if grown {
            self.bytes.len()
        } else {
            self.settled.len()
        };
        leave(&mut self.bytes, &self.settled, &self.unsettled, fate);
        self.bytes.truncate(size);
        let left = self.bytes.as_slice();
        copy(&mut self.settled, left);
        self.unsettled.clear();
    }

    /// Settles the file as reads give it. Costs what was written since the last sync, not the file.
    pub(crate) fn settle(&mut self)
        ensures bytes { self.new.bytes.items ≡ self.old.bytes.items }
        ensures settled { self.new.settled.items ≡ self.old.bytes.items }
        ensures unsettled { self.new.unsettled.items ≡ [] }
        ensures room { self.new.room ≡ self.old.room }
        ensures ranges { vec_capacity self.new.unsettled ≡ vec_capacity self.old.unsettled }
    {
        let size = self.settled.len();
        self.settled.extend_from_slice(&self.bytes[size..]).unwrap();
        copy_ranges(&mut self.settled, &self.bytes, &self.unsettled);
        self.unsettled.clear();
    }
}

/// Makes a file that has the room for it the same as another.
fn copy(file: &mut Vec<u8>, bytes: &[u8])
    requires { length bytes.now ≤ vec_capacity file.old }
    ensures same { file.new.items ≡ bytes.now }
    ensures capacity { vec_capacity file.old ≤ vec_capacity file.new }
{
    file.clear();
    file.extend_from_slice(bytes).unwrap();
}

/// Makes a file that is another one of its size outside of these ranges the same.
fn copy_ranges(file: &mut [u8], bytes: &[u8], ranges: &[(usize, usize)])
    requires within { All (λ range. range.0 + range.1 ≤ length bytes.now) ranges.now }
    requires elsewhere { IsSameOutside ranges.now file.old bytes.now }
    ensures same { file.new ≡ bytes.now }
{
    for range in ranges {
        copy_range(file, bytes, range.0, range.1);
    }
}

/// Copies a range into the other file's.
fn copy_range(file: &mut [u8], bytes: &[u8], at: usize, count: usize)
    requires size { length file.old ≡ length bytes.now }
    requires within { at + count ≤ length bytes.now }
    ensures { file.new ≡ overwritten file.old at (part bytes.now at count) }
{
    file[at..at + count].copy_from_slice(&bytes[at..at + count]);
}

/// Writes over the unsettled bytes of a file.
fn leave(bytes: &mut Vec<u8>, settled: &[u8], ranges: &[(usize, usize)], fate: Fate)
    requires longer { length settled.now ≤ length bytes.old.items }
    requires within { All (λ range. range.0 + range.1 ≤ length bytes.old.items) ranges.now }
    ensures left { bytes.new.items ≡ left_whole fate bytes.old.items settled.now ranges.now }
    ensures capacity { vec_capacity bytes.old ≤ vec_capacity bytes.new }
{
    let size = bytes.len();
    match fate {
        Fate::Old => {
            copy(bytes, settled);
            bytes.resize(size, 0).unwrap();
        }
        Fate::New => {}
        Fate::Fill(byte) => {
            fill(bytes, ranges, byte);
            bytes.truncate(settled.len());
            bytes.resize(size, byte).unwrap();
        }
    }
}

/// Writes this byte all over the ranges.
fn fill(bytes: &mut [u8], ranges: &[(usize, usize)], byte: u8)
    requires { All (λ range. range.0 + range.1 ≤ length bytes.old) ranges.now }
    ensures { bytes.new ≡ filled byte ranges.now bytes.old }
{
    for (at, len) in ranges {
        bytes[*at..*at + *len].fill(byte);
    }
}

/// Writes into bytes that have the room for it.
fn overwrite(file: &mut Vec<u8>, at: usize, bytes: &[u8])
    requires within { at ≤ vec_len file.old }
    requires room { at + length bytes.now ≤ vec_capacity file.old }
    ensures written { file.new.items ≡ overwritten file.old.items at bytes.now }
    ensures capacity { vec_capacity file.old ≤ vec_capacity file.new }
{
    let end = at + bytes.len();
    if end < file.len() {
        file[at..end].copy_from_slice(bytes);
    } else {
        file.truncate(at);
        file.extend_from_slice(bytes).unwrap();
    }
}
