//! What two hubs have when nobody has anything more to say over the links between them.
use crate::meeting_run::Meeting;
use std::alloc::Global;
use std::test::Fail;

/// The changes that each hub makes before the two meet.
const CHANGES: u32 = 60;

/// How often the two are apart and meet again.
const ROUNDS: u32 = 3;

/// What a meeting comes to.
#[derive(Clone, Copy, Debug, PartialEq, Eq)]
struct Outcome {
    turns: u32,
    /// How often links began anew, and the bytes of cut frames.
    breaks: u32,
    dropped: usize,
    operations: usize,
    merged: (usize, usize),
    /// The operations that were heard again.
    known: usize,
    characters: usize,
    spans: usize,
    same_text: bool,
    same_spans: bool,
    same_clock: bool,
    same_count: bool,
}

/// All that is said comes.
const WITH_ALL: Outcome = Outcome {
    turns: 34,
    breaks: 0,
    dropped: 0,
    operations: 1_151,
    merged: (632, 519),
    known: 0,
    characters: 928,
    spans: 32,
    same_text: true,
    same_spans: true,
    same_clock: true,
    same_count: true,
};

/// Frames are lost, and links begin anew, four times each time the two meet.
const WITH_LOSSES: Outcome = Outcome {
    turns: 46,
    breaks: 24,
    dropped: 29_869,
    operations: 1_151,
    merged: (632, 519),
    known: 256,
    characters: 928,
    spans: 32,
    same_text: true,
    same_spans: true,
    same_clock: true,
    same_count: true,
};

/// Three times both hubs are edited apart and meet; each time the links break off so often at
/// first, in the middle of frames, and begin anew. `None` where something is refused.
fn met(alloc: Global, breaks: u32) -> Option<Box<Meeting>> {
    let mut meeting = Meeting::new(alloc)?;
    for round in 0..ROUNDS {
        meeting.edit_apart(alloc, round * CHANGES, CHANGES)?;
        for _ in 0..breaks {
            meeting.turn()?;
            meeting.break_off(alloc)?;
        }
        meeting.run()?;
    }
    Some(meeting)
}

/// What the two hubs of a meeting have.
fn compared(meeting: &Meeting) -> Option<Outcome> {
    let (first, second) = (&meeting.first, &meeting.second);
    let text = first.hub.text(1).ok()?;
    let spans = first.hub.spans(1).ok()?;
    let operations = first.hub.list().len();
    Some(Outcome {
        turns: meeting.turns,
        breaks: meeting.breaks,
        dropped: meeting.dropped,
        operations,
        merged: (first.merged, second.merged),
        known: first.known.saturating_add(second.known),
        characters: text.as_slice().len(),
        spans: spans.len(),
        same_text: text == second.hub.text(1).ok()?,
        same_spans: spans == second.hub.spans(1).ok()?,
        same_clock: first.hub.clock() == second.hub.clock(),
        same_count: operations == second.hub.list().len(),
    })
}

/// What a meeting with so many breaks comes to.
fn outcome_of(alloc: Global, breaks: u32) -> Option<Outcome> {
    let meeting = met(alloc, breaks)?;
    compared(&meeting)
}

#[test]
fn two_hubs_agree_though_frames_are_lost_and_links_begin_anew(rt: HostRuntime) -> Result<(), Fail> {
    for (breaks, due) in [(0, WITH_ALL), (4, WITH_LOSSES)] {
        let found = outcome_of(rt.alloc(), breaks).ok_or("refused")?;
        assert!(rt; found == due, "{breaks} breaks: {found:?}");
    }
    Ok(())
}
