//! Who is connected to a hub that threads share.
ghost use Rattle.std.specs.Prelude.{◌≡◌};

use crate::test_hubs::{insert, replica, share, take_pass};
use disk_trait::MemDisk;
use op_ids::Clock;
use pass_books::BookNames;
use shared_hub::{Named, Opened, Pass, Shared};
use std::alloc::Global;
use std::marker::Brand;
use std::sync::Wait;
use std::test::Fail;

/// The clock of one who has so many operations of the replica whose name ends in this byte.
fn clock(alloc: Global, last: u8, count: u64) -> Option<Clock> {
    let replica = replica(last)?;
    let mut clock = Clock::new(alloc);
    for _ in 0..count {
        clock.advance(replica).ok()?;
    }
    Some(clock)
}

/// Notes that the peer of a link, whose name ends in this byte, has that.
fn link<J: BookNames, R: Wait>(
    rt: &R,
    shared: &Shared<J>,
    link: usize,
    last: u8,
    its: Clock,
) -> Option<()> {
    shared.note_peer(rt, link, replica(last)?, its);
    Some(())
}

/// How many rows there are, and what the last one says: the replica's last byte, how many
/// operations that has, and how many it lacks.
fn rows<J: BookNames, R: Wait>(
    rt: &R,
    alloc: Global,
    shared: &Shared<J>,
    pass: &mut Pass<J>,
) -> Option<(usize, u8, u64, u64)> {
    let peers = shared.peers(rt, alloc, pass).ok()?;
    let last = peers.last()?;
    Some((peers.len(), last.replica.bytes()[15], last.has, last.lacks))
}

/// Makes an operation.
fn edit<J: BookNames, R: Wait>(
    rt: &R,
    alloc: Global,
    shared: &Shared<J>,
    pass: &mut Pass<J>,
) -> Option<()> {
    let edit = insert(alloc, 1)?;
    shared.edit(rt, pass, &edit).ok()?;
    Some(())
}

/// The rows beside two operations: with the second link, with the first one too, and once that has
/// ended.
fn rows_in_turn<J: BookNames, R: Wait>(
    rt: &R,
    alloc: Global,
    shared: &Shared<J>,
    pass: &mut Pass<J>,
) -> Option<[(usize, u8, u64, u64); 3]> {
    edit(rt, alloc, shared, pass)?;
    edit(rt, alloc, shared, pass)?;
    link(rt, shared, 1, 3, clock(alloc, 3, 4)?)?;
    let second = rows(rt, alloc, shared, pass)?;
    link(rt, shared, 0, 2, clock(alloc, 1, 1)?)?;
    let both = rows(rt, alloc, shared, pass)?;
    shared.forget_peer(rt, 1);
    Some([second, both, rows(rt, alloc, shared, pass)?])
}

/// How many sessions there are while two come and one goes.
fn sessions<J: BookNames, R: Wait>(rt: &R, shared: &Shared<J>) -> [u64; 3] {
    let none = shared.sessions(rt);
    shared.note_session(rt);
    shared.note_session(rt);
    let two = shared.sessions(rt);
    shared.forget_session(rt);
    [none, two, shared.sessions(rt)]
}

/// The rows and the sessions.
fn rows_and_sessions<J: BookNames, R: Wait>(
    rt: &R,
    alloc: Global,
    hub: &mut Named<J, MemDisk>,
) -> Option<([(usize, u8, u64, u64); 3], [u64; 3])> {
    let mut pass = take_pass(hub)?;
    let sessions = sessions(rt, &hub.shared);
    Some((rows_in_turn(rt, alloc, &hub.shared, &mut pass)?, sessions))
}

/// Those of a new replica's hub.
fn connected<J: BookNames, R: Wait>(
    rt: &R,
    alloc: Global,
    opened: Opened,
) -> Option<([(usize, u8, u64, u64); 3], [u64; 3])>
    requires { opened ≡ J.names }
{
    let mut hub = share::<J>(alloc, opened)?;
    rows_and_sessions(rt, alloc, &mut hub)
}

#[test]
fn rows_are_those_of_who_is_linked(rt: HostRuntime) -> Result<(), Fail> {
    let opened = Opened::new(rt.alloc())?;
    let (rows, sessions) = connected::<Brand, _>(&rt, rt.alloc(), opened).ok_or("connected")?;
    // The rows are in the order of the links.
    assert!(rt; rows == [(1, 3, 4, 2), (2, 3, 4, 2), (1, 2, 1, 1)]);
    assert!(rt; sessions == [0, 2, 1]);
    Ok(())
}
