//! Two links that speak in turn, each over a `Peer` that holds a list. A test gets plain values and compares
//! them: each way out past an end of a link is what the proof of a test costs.
use crate::test_ends::{End, turns};
use link_speaker::{Line, Peer, SpeakError};
use op_ids::{Clock, ReplicaId};
use std::alloc::Global;
use std::io;
use std::io::Write;
use std::test::Fail;

/// The turns that two ends take, how many operations each has then, and whether they have the same.
fn meeting(first: &mut End, second: &mut End) -> Result<(u32, usize, usize, bool), Fail> {
    let turns = turns(first, second)?;
    let are_alike = first.peer.have()? == second.peer.have()?;
    Ok((
        turns,
        first.peer.ops.len(),
        second.peer.ops.len(),
        are_alike,
    ))
}

#[test]
fn two_that_speak_in_turn_come_to_have_all(rt: HostRuntime) -> Result<(), Fail> {
    let mut first = End::new(rt.alloc(), 1, 100)?;
    let mut second = End::new(rt.alloc(), 2, 70)?;
    // The first turn brings 64 operations back, the second one 64 there and 6 back, the third one
    // 36 there.
    let met = meeting(&mut first, &mut second)?;
    assert_eq!(rt; met, (3, 170, 170, true));
    Ok(())
}

/// How many operations the second end has once it heard what the first one says, and whether that
/// told some.
fn told(first: &mut End, second: &mut End) -> Result<(usize, bool), Fail> {
    let (bytes, has_told) = first.spoken()?;
    second.hear(&bytes)?;
    Ok((second.peer.ops.len(), has_told))
}

/// The same three times over, once the first end heard the second one.
fn told_thrice(first: &mut End, second: &mut End) -> Result<[(usize, bool); 3], Fail> {
    first.hear(&second.spoken()?.0)?;
    Ok([
        told(first, second)?,
        told(first, second)?,
        told(first, second)?,
    ])
}

#[test]
fn operations_are_told_in_full_frames_at_first(rt: HostRuntime) -> Result<(), Fail> {
    let mut first = End::new(rt.alloc(), 1, 100)?;
    let mut second = End::new(rt.alloc(), 2, 0)?;
    let told = told_thrice(&mut first, &mut second)?;
    assert!(rt; told == [(64, true), (100, true), (100, false)]);
    Ok(())
}

/// How many HAVE the second end hears in what is due at the first one, or is asked for.
fn haves(first: &mut End, second: &mut End, is_asked: bool) -> Result<usize, Fail> {
    let mut bytes = Vec::new(first.alloc);
    first.speak(&mut bytes, is_asked)?;
    second.hear(&bytes)
}

/// The same at first, again, asked for, and with an operation less.
fn haves_in_turn(first: &mut End, second: &mut End) -> Result<[usize; 4], Fail> {
    let once = haves(first, second, false)?;
    let again = haves(first, second, false)?;
    let asked = haves(first, second, true)?;
    first.peer.ops.pop();
    Ok([once, again, asked, haves(first, second, false)?])
}

#[test]
fn a_have_is_said_where_it_is_due(rt: HostRuntime) -> Result<(), Fail> {
    let mut first = End::new(rt.alloc(), 1, 3)?;
    let mut second = End::new(rt.alloc(), 2, 0)?;
    let found = haves_in_turn(&mut first, &mut second)?;
    assert!(rt; found == [1, 0, 1, 1]);
    Ok(())
}

/// Takes `room` bytes, and then fails.
#[derive(Drop)]
struct Sink {
    taken: Vec<u8>,
    room: usize,
}

impl Write for Sink {
    fn write(&mut self, buf: &[u8]) -> io::Result<usize> {
        let count = buf.len().min(7).min(self.room);
        if count == 0 && !buf.is_empty() {
            return Err(io::Error::other("the output broke"));
        }
        self.taken.extend_from_slice(&buf[..count])?;
        self.room -= count;
        Ok(count)
    }

    fn flush(&mut self) -> io::Result<()> {
        Ok(())
    }
}

/// What came of a writer that broke: whether that was the answer, whether what it took is a
/// beginning of these bytes, how many it took, and whether nothing is said anew.
fn broken(end: &mut End, whole: &[u8], room: usize) -> Result<(bool, bool, usize, bool), Fail> {
    let taken = Vec::new(end.alloc);
    let mut sink = Sink { taken, room };
    let is_told = matches!(end.speak(&mut sink, false), Err(SpeakError::Stream(_)));
    let taken = sink.taken;
    let is_beginning = whole.starts_with(&taken);
    Ok((
        is_told,
        is_beginning,
        taken.len(),
        end.spoken()?.0.is_empty(),
    ))
}

#[test]
fn a_writer_that_breaks_has_a_beginning(rt: HostRuntime) -> Result<(), Fail> {
    let whole = End::new(rt.alloc(), 1, 3)?.spoken()?.0;
    for room in [0, 1, 30, 48] {
        let mut end = End::new(rt.alloc(), 1, 3)?;
        let found = broken(&mut end, &whole, room)?;
        assert_eq!(rt; found, (true, true, room, true));
    }
    Ok(())
}

/// A HAVE, behind a HELLO, of sixteen replicas.
fn full_have(alloc: Global) -> Result<Vec<u8>, Fail> {
    let mut clock = Clock::new(alloc);
    for last in 100..116 {
        let name = [0, 0, 0, 0, 0, 0, 0x40, 0, 0x80, 0, 0, 0, 0, 0, 0, last];
        clock.advance(ReplicaId::read(name).ok_or("nil")?)?;
    }
    let mut other = End::new(alloc, 2, 0)?;
    other.link.say_have(&clock)?;
    Ok(other.link.take_out())
}

/// Whether what an end has to say is refused with this number, and nothing is written.
fn is_refused(end: &mut End, number: u8) -> bool {
    let mut bytes = Vec::new(end.alloc);
    let answer = end.speak(&mut bytes, false);
    let is_told = matches!(answer, Err(SpeakError::Link(refusal)) if refusal.number() == number);
    is_told && bytes.is_empty()
}

/// Whether an end that hears a full HAVE is refused twice with 7, and how many HAVE it leaves to be
/// heard.
fn refused(first: &mut End, second: &mut End) -> Result<(bool, usize), Fail> {
    first.hear(&full_have(first.alloc)?)?;
    let is_refused = is_refused(first, 7) && is_refused(first, 7);
    Ok((is_refused, second.hear(&first.link.take_out())?))
}

#[test]
fn refused_operations_leave_the_have_said(rt: HostRuntime) -> Result<(), Fail> {
    let mut first = End::new(rt.alloc(), 1, 3)?;
    let mut second = End::new(rt.alloc(), 2, 0)?;
    let found = refused(&mut first, &mut second)?;
    assert_eq!(rt; found, (true, 1));
    Ok(())
}

#[test]
fn a_link_that_has_ended_refuses(rt: HostRuntime) -> Result<(), Fail> {
    let mut end = End::new(rt.alloc(), 1, 3)?;
    let is_said = Line::say_bye(&mut end.link).is_ok();
    assert!(rt; is_said && is_refused(&mut end, 27));
    Ok(())
}
