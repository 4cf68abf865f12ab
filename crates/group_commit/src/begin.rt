//! The beginning of a commit.
ghost use Rattle.std.specs.Prelude.{◌≡◌, ◌≢◌, ℕ, ◌<◌, ◌++◌, true, false, List, length, IfOk, Ok, Some};
ghost use Rattle.op_model.specs.declared.op.Op.{Op as Operation};
ghost use Rattle.page_file.specs.Pages.{is_zero};
ghost use Rattle.piece_codec.specs.Stream.{SpellsList};
ghost use Rattle.root_slots.specs.Root.{count_of};
ghost use Rattle.group_commit.specs.Begin.{begin_due, due_on, has_room_for, IsAnswer};
ghost use Rattle.group_commit.specs.Begin.{AreWritten, Begins, BeginsOn};
ghost use Rattle.group_commit.specs.Moving.{moves};
ghost use Rattle.group_commit.specs.Plan.{newest};
ghost use Rattle.group_commit.specs.Saved.{Saved, base_of};

use crate::error::StoreError;
use crate::phase::Phase;
use crate::plan::{Plan, plan_next};
use crate::planned::{Live, Records};
use crate::root::Root;
use crate::store::Store;
use change_codec::Format;
use disk_trait::Disk;
use fixed_numbers::limits::{MAX_OPERATIONS, MAX_STREAM_LENGTH, MAX_VERSION};
use std::alloc::AllocError;

/// Whether there is a further version behind this root, and room for `count` more operations, whose
/// records take `bytes` bytes behind `before` others.
fn has_room(root: &Root, before: u64, count: u64, bytes: u64) -> bool
    ensures { (base : Saved) → base.body ≡ root.now.body → length base.stream ≡ before
        → result ≡ has_room_for base count bytes }
{
    root.version() < MAX_VERSION
        && root.count().saturating_add(count) <= MAX_OPERATIONS as u64
        && before.saturating_add(bytes) <= MAX_STREAM_LENGTH
}

/// Some bytes, and others behind them. An error is out of memory (1).
fn joined(front: &Vec<u8>, more: &[u8]) -> Result<Vec<u8>, AllocError>
    ensures { IfOk result (λ all. all.items ≡ front.now.items ++ more.now) }
{
    let mut all = Vec::new(*front.allocator());
    all.extend_from_slice(front)?;
    all.extend_from_slice(more)?;
    Ok(all)
}

impl<D: Disk> Store<D> {
    /// Whether a commit of `count` operations, whose records take `bytes` bytes, has room: there is
    /// a further version, and the number of operations (2^24) and the stream (2^30 bytes) stay
    /// within their limits. Constant; takes no memory.
    pub fn has_room(&self, count: u64, bytes: u64) -> bool
        ensures { result ≡ has_room_for self.now.current count bytes }
    {
        has_room(&self.current, self.current.stream_length(), count, bytes)
    }

    /// How many bytes a commit's records come behind: those of the live root's stream, or none
    /// where they are the `whole` stream.
    fn bytes_before(&self, whole: bool) -> u64
        ensures { result ≡ length (base_of whole self.now.current).stream }
    {
        if whole {
            0
        } else {
            self.current.stream_length()
        }
    }

    /// The answer that is due of a begin with `count` more operations, whose records take `bytes`
    /// bytes and come behind the live root's stream, or are the `whole` one.
    fn answer_due(&self, whole: bool, count: u64, bytes: u64) -> Result<Option<u64>, StoreError>
        ensures { result ≡ due_on (base_of whole self.now.current) self.now count bytes }
    {
        if self.failed {
            return Err(StoreError::Failed);
        }
        if !self.phase.is_idle() {
            return Err(StoreError::Busy);
        }
        if count == 0 {
            return Ok(None);
        }
        if !has_room(&self.current, self.bytes_before(whole), count, bytes) {
            return Err(StoreError::Limit);
        }
        Ok(Some(self.current.count() + count))
    }

    /// Whether a commit writes the whole list anew: the format of the live root has no runs.
    fn moves(&self) -> bool
        ensures { result ≡ moves self.now.current }
    {
        match self.current.format() {
            Format::First => true,
            Format::Second | Format::Third => false,
        }
    }

    /// Begins a commit of the `count` operations that these bytes spell in the third format, which
    /// come behind the committed ones. Answers the length of the list that it commits; `None` where
    /// there are none. It makes no device call. The root that it makes is of the third format,
    /// whatever the live one is of. A stream of the second format is one of the third, and stays.
    /// One of the first has a record for each operation: it is written anew, with runs of typed
    /// characters in one record, on pages that are all new, while the live root keeps its own. So
    /// a crash leaves one list or the other, each in its own format.
    ///
    /// Refuses, in this order, with 44 where a device call failed before, 8 where a commit is under
    /// way, 7 where the version, the number of operations (2^24) or the stream (2^30 bytes) has no
    /// room, and 1 where a growth was refused. A refused call changes nothing.
    ///
    /// Costs the bytes of the records and of the pages that it writes; it reads and copies no
    /// operation. Of the stream before it, only the bytes behind its full pages are read, fewer
    /// than 4,096; no others are in memory. Of the data pages that stay, the numbers are read that
    /// stand in the last table page, if it isn't full: fewer than 1,024. Free pages are taken
    /// from the ranges of free ones, the lowest first. A commit that writes the list anew costs the
    /// bytes of all records, which it copies once, and its file may become twice as long.
    pub fn begin_records(&mut self, records: &[u8], count: u64) -> Result<Option<u64>, StoreError>
        requires { (ops : List Operation) × AreWritten ops count records.now }
        ensures answer { IsAnswer (begin_due self.old count (length records.now)) result }
        ensures began { (ops : List Operation) → AreWritten ops count records.now → (n : ℕ)
            → result ≡ Ok (Some n) → Begins D.DiskFacts self.old ops records.now self.new }
        ensures same { ((n : ℕ) → result ≢ Ok (Some n)) → self.new ≡ self.old }
    {
        if self.moves() {
            self.begin_anew(records, count)
        } else {
            self.begin(false, records, count)
        }
    }

    /// The same over a live root whose list is written anew.
    fn begin_anew(&mut self, records: &[u8], count: u64) -> Result<Option<u64>, StoreError>
        requires moves { moves self.old.current ≡ true }
        requires written { (ops : List Operation) × AreWritten ops count records.now }
        ensures answer { IsAnswer (begin_due self.old count (length records.now)) result }
        ensures began { (ops : List Operation) → AreWritten ops count records.now → (n : ℕ)
            → result ≡ Ok (Some n) → Begins D.DiskFacts self.old ops records.now self.new }
        ensures same { ((n : ℕ) → result ≢ Ok (Some n)) → self.new ≡ self.old }
    {
        let due = self.answer_due(false, count, records.len() as u64);
        let Ok(Some(_)) = due else {
            return due;
        };
        let all = joined(&self.anew, records)?;
        self.begin(true, &all, count)
    }

    /// Begins a commit of `count` more operations, whose records come behind the live root's
    /// stream, or are the `whole` one.
    fn begin(&mut self, whole: bool, records: &[u8], count: u64) -> Result<Option<u64>, StoreError>
        requires { 0 < count → is_zero records.now ≡ false }
        ensures answer { IsAnswer
            (due_on (base_of whole self.old.current) self.old count (length records.now)) result }
        ensures began { (ops : List Operation) → SpellsList newest ops records.now → (n : ℕ)
            → result ≡ Ok (Some n) → BeginsOn D.DiskFacts self.old
            (base_of whole self.old.current) ops count records.now self.new }
        ensures same { ((n : ℕ) → result ≢ Ok (Some n)) → self.new ≡ self.old }
    {
        let due = self.answer_due(whole, count, records.len() as u64);
        let Ok(Some(_)) = due else {
            return due;
        };
        let live = Live {
            root: &self.current,
            index: &self.pages,
        };
        let new = Records {
            bytes: records,
            count,
        };
        let (plan, next_stream) = plan_next(live, &self.stream, whole, new)?;
        let Plan {
            next,
            kept,
            new_data,
            numbers,
            fresh,
        } = plan;
        self.pages.reserve(numbers.len())?;
        self.next = next;
        self.next_stream = next_stream;
        self.kept = kept;
        self.new_data = new_data;
        self.numbers = numbers;
        self.fresh = fresh;
        self.phase = Phase::Pages(0);
        due
    }

    /// How many operations are in the live root. Takes no memory.
    pub fn committed(&self) -> u64
        ensures { result ≡ count_of self.now.current.body }
    {
        self.current.count()
    }

    /// How many operations are in the root that the commit under way makes, or the last one made.
    pub fn committing(&self) -> u64
        ensures { result ≡ count_of self.now.next.body }
    {
        self.next.count()
    }

    /// The disk. What a commit under way has written stays there.
    pub fn into_disk(self) -> D
        ensures { result ≡ self.disk }
    {
        let Store { disk, .. } = self;
        disk
    }
}
