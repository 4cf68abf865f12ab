//! Edits under a token, through a `Desk`: each acts once, whatever ends or fails before it is sent
//! again.
use crate::test_hubs::{NEVER, failing_disk, insert, insert_under};
use disk_trait::{Disk, FaultDisk, MemDisk};
use locked_replica::Hub;
use op_ids::Token;
use op_model::Action;
use placed_edits::PlacedAction;
use session_lines::{Answer, Command};
use session_threads::{Desk, HubDesk};
use std::alloc::Global;
use std::process::Abort;

/// A desk over a new store, of whose device calls the n-th fails: three are made by the opening,
/// seven by the first commit, eight by each other one.
type Failing = HubDesk<FaultDisk<MemDisk>>;

/// What is asked of a desk.
#[derive(Clone, Copy)]
enum Ask {
    /// The insert of "a" at an index of document 1, under the token
    /// `00000000-0000-4000-8000-0000000000d1`.
    Send(u32),
    /// The insert of "b" behind the first character, without a token.
    SendWithout,
    /// Whether document 1 has this text: 1 or 0.
    Shows(&'static str),
    /// A stop: 0.
    Stop,
    /// An opening of the file anew: 0.
    Reopen,
}

/// What is asked, and what is answered: the rev of an edit or another number, or the number of the
/// refusal.
type Row = (Ask, Result<u64, u8>);

/// The insert of "a" under the token.
fn with_token(alloc: Global, at: u32) -> Option<Action> {
    let token = Token::read([0, 0, 0, 0, 0, 0, 0x40, 0, 0x80, 0, 0, 0, 0, 0, 0, 0xd1]);
    insert_under(alloc, token, at, 'a', 1)
}

/// A desk over the hub of a disk.
fn desk_over(alloc: Global, disk: FaultDisk<MemDisk>) -> Option<Box<Failing>> {
    match Hub::open(alloc, disk) {
        Ok(hub) => Box::new(alloc, HubDesk::new(hub, 1)).ok(),
        Err(_) => None,
    }
}

/// The disk of a desk.
fn disk_of(desk: Box<Failing>) -> FaultDisk<MemDisk> {
    Box::into_inner(desk).into_hub().into_disk()
}

/// The rev that an edit is answered with, or the number of its refusal.
fn edited(alloc: Global, desk: &mut Failing, edit: Option<Action>) -> Result<u64, u8> {
    let Some(edit) = edit else {
        return Err(0);
    };
    let placed = PlacedAction::by_numbers(alloc, edit);
    match desk.serve(alloc, Command::Edit(placed)) {
        Answer::Edited { rev } => Ok(rev),
        Answer::Refused(refusal) => Err(refusal.number()),
        _ => Err(0),
    }
}

/// Whether document 1 has this text.
fn shows(alloc: Global, desk: &mut Failing, wanted: &str) -> bool {
    match desk.serve(
        alloc,
        Command::Text {
            doc: 1,
            at_rev: None,
        },
    ) {
        Answer::Text { text, .. } => text.as_slice().iter().copied().eq(wanted.chars()),
        _ => false,
    }
}

/// What a desk answers.
fn answer(alloc: Global, desk: &mut Failing, ask: &Ask) -> Result<u64, u8> {
    match ask {
        Ask::Send(at) => edited(alloc, desk, with_token(alloc, *at)),
        Ask::SendWithout => edited(alloc, desk, insert(alloc, 1, 'b', 1)),
        Ask::Shows(text) => Ok(shows(alloc, desk, text) as u64),
        Ask::Stop => match desk.serve(alloc, Command::Stop) {
            Answer::Stopped => Ok(0),
            _ => Err(0),
        },
        Ask::Reopen => Err(0),
    }
}

/// How many rows are answered as they say before one isn't. Gives the disk too.
fn count_right(alloc: Global, n: u64, rows: &[Row]) -> Option<(usize, FaultDisk<MemDisk>)> {
    let mut desk = desk_over(alloc, failing_disk(alloc, 1, n)?)?;
    let mut count = 0usize;
    for (ask, wanted) in rows {
        if matches!(ask, Ask::Reopen) {
            desk = desk_over(alloc, disk_of(desk))?;
        } else if answer(alloc, &mut desk, ask) != *wanted {
            break;
        }
        count = count.saturating_add(1);
    }
    Some((count, disk_of(desk)))
}

/// What a case shows of a desk over a new store, of whose device calls the n-th fails; and its rows.
type Case = (&'static str, u64, &'static [Row]);

/// Plays the rows of each case. Where one isn't answered as it says, it fails with the case and the
/// number of the rows before that one.
fn plays(rt: &(impl Abort + AllocGlobal), cases: &[Case]) {
    for (name, n, rows) in cases {
        let count = played(rt.alloc(), *n, rows);
        assert_eq!(rt; count, rows.len(), "{name}, where call {n} fails");
    }
}

fn played(alloc: Global, n: u64, rows: &[Row]) -> usize {
    match count_right(alloc, n, rows) {
        Some((count, _)) => count,
        None => 0,
    }
}

const SENT_AGAIN: [Row; 8] = [
    (Ask::Send(0), Ok(1)),
    (Ask::Send(0), Ok(1)),
    (Ask::Shows("a"), Ok(1)),
    (Ask::SendWithout, Ok(2)),
    (Ask::Send(0), Ok(1)),
    (Ask::Reopen, Ok(0)),
    (Ask::Send(0), Ok(1)),
    (Ask::Shows("ab"), Ok(1)),
];

const STOPPED: [Row; 4] = [
    (Ask::Send(0), Ok(1)),
    (Ask::Stop, Ok(0)),
    (Ask::Send(0), Ok(1)),
    (Ask::SendWithout, Err(12)),
];

const REFUSED: [Row; 3] = [
    (Ask::Send(9), Err(5)),
    (Ask::Send(0), Ok(1)),
    (Ask::Shows("a"), Ok(1)),
];

const FAILED: [Row; 4] = [
    (Ask::Send(0), Ok(1)),
    (Ask::SendWithout, Err(9)),
    (Ask::Send(0), Ok(1)),
    (Ask::SendWithout, Err(9)),
];

/// An edit whose commit fails, after which the file has nothing.
const FAILED_BEFORE: [Row; 6] = [
    (Ask::Send(0), Err(9)),
    (Ask::Send(0), Err(9)),
    (Ask::Reopen, Ok(0)),
    (Ask::Shows(""), Ok(1)),
    (Ask::Send(0), Ok(1)),
    (Ask::Shows("a"), Ok(1)),
];

/// An edit whose commit fails, after which the file has the edit.
const FAILED_AFTER: [Row; 6] = [
    (Ask::Send(0), Err(9)),
    (Ask::Send(0), Err(9)),
    (Ask::Reopen, Ok(0)),
    (Ask::Shows("a"), Ok(1)),
    (Ask::Send(0), Ok(1)),
    (Ask::Shows("a"), Ok(1)),
];

static CASES: [Case; 6] = [
    (
        "an edit that is sent again has its first answer",
        NEVER,
        &SENT_AGAIN,
    ),
    ("a stop refuses no edit that was made", NEVER, &STOPPED),
    ("a refused edit leaves no token", NEVER, &REFUSED),
    // The last sync of the second commit.
    ("a failure refuses no edit that is settled", 18, &FAILED),
    // The first sync of the first commit, and the last one.
    ("an edit whose commit failed acts once", 6, &FAILED_BEFORE),
    ("an edit whose commit failed acts once", 10, &FAILED_AFTER),
];

#[test]
fn an_edit_under_a_token_acts_once(rt: HostRuntime) {
    plays(&rt, &CASES);
}

/// The record of the insert: its length, its kind, the document, the counter, the replica, no
/// dependencies, the token, no origin and the character.
const RECORD: [u8; 55] = [
    0, 0, 0, 0x33, 0x11, 0, 0, 0, 1, 0, 0, 0, 0, 0, 0, 0, 1, 0, 0, 0, 0, 0, 0, 0x40, 0, 0x80, 0, 0,
    0, 0, 0, 0, 1, 0, 0, 0, 0, 0, 0, 0, 0x40, 0, 0x80, 0, 0, 0, 0, 0, 0, 0xd1, 0, 0, 0, 0, 0x61,
];

static SENT: [Row; 1] = [(Ask::Send(0), Ok(1))];

/// Whether the file has the record behind an edit, in the first page of records, which stands
/// behind those of the two roots.
fn has_record(alloc: Global) -> Option<bool> {
    let (count, mut disk) = count_right(alloc, NEVER, &SENT)?;
    let mut bytes = [1; 55];
    let is_read = Disk::read_at(&mut disk, 8_192, &mut bytes).is_ok();
    Some(count == SENT.len() && is_read && bytes == RECORD)
}

#[test]
fn the_token_stands_in_the_file(rt: HostRuntime) {
    assert!(rt; has_record(rt.alloc()) == Some(true));
}
