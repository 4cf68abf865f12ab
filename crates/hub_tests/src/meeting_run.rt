//! Two hubs and the links between them, whose bytes are passed on by hand.
use crate::meeting_peer::Peer;
use std::alloc::Global;

/// The turns of a meeting, at most.
const TURNS: u32 = 1_000;

/// Two hubs that have a link each. What is taken out of one link is fed to the other.
#[derive(Drop)]
pub(crate) struct Meeting {
    pub(crate) first: Box<Peer>,
    pub(crate) second: Box<Peer>,
    /// The turns so far.
    pub(crate) turns: u32,
    /// How often a link began anew.
    pub(crate) breaks: u32,
    /// The bytes of unfinished frames that were dropped with their links.
    pub(crate) dropped: usize,
}

impl Meeting {
    /// Two new hubs.
    pub(crate) fn new(alloc: Global) -> Option<Box<Meeting>> {
        let meeting = Meeting {
            first: Peer::new(alloc, 1)?,
            second: Peer::new(alloc, 2)?,
            turns: 0,
            breaks: 0,
            dropped: 0,
        };
        Box::new(alloc, meeting).ok()
    }

    /// Both hubs make `count` changes, from this number on, of which the other one knows nothing.
    pub(crate) fn edit_apart(&mut self, alloc: Global, number: u32, count: u32) -> Option<()> {
        self.first.edit_all(alloc, "sun ", number, count)?;
        self.second.edit_all(alloc, "moon ", number, count)
    }

    /// Turns until both have settled all and nobody has anything to say.
    pub(crate) fn run(&mut self) -> Option<()> {
        for _ in 0..TURNS {
            let settles = self.settles();
            if self.turn()? == 0 && settles {
                return Some(());
            }
        }
        None
    }

    /// Each hub says what is due, and that comes to the other one. Gives how many bytes there were.
    pub(crate) fn turn(&mut self) -> Option<usize> {
        let settles = self.settles();
        self.turns = self.turns.saturating_add(1);
        let there = passed(&mut self.first, &mut self.second, settles)?;
        let back = passed(&mut self.second, &mut self.first, settles)?;
        Some(there.saturating_add(back))
    }

    /// Each hub says what is due, of which a part comes to the other one, up to the middle of a
    /// frame. Then both links begin anew.
    pub(crate) fn break_off(&mut self, alloc: Global) -> Option<()> {
        let settles = self.settles();
        self.turns = self.turns.saturating_add(1);
        cut(&mut self.first, &mut self.second, settles)?;
        cut(&mut self.second, &mut self.first, settles)?;
        let there = self.first.begin_anew(alloc)?;
        let back = self.second.begin_anew(alloc)?;
        self.breaks = self.breaks.saturating_add(2);
        self.dropped = self.dropped.saturating_add(there).saturating_add(back);
        Some(())
    }

    /// Whether the hubs commit in the next turn: in each third one, so that operations are told
    /// again which weren't settled when a link broke off.
    fn settles(&self) -> bool {
        self.turns % 3 == 0
    }
}

/// One hub says what is due, after a commit where it settles. Gives the bytes of it.
fn spoken(from: &mut Peer, settles: bool) -> Option<Vec<u8>> {
    if settles {
        from.settle()?;
    }
    from.speak()?;
    Some(from.take_out())
}

/// What one hub says comes to another. Gives how many bytes there were.
fn passed(from: &mut Peer, to: &mut Peer, settles: bool) -> Option<usize> {
    let bytes = spoken(from, settles)?;
    to.hear(&bytes)?;
    Some(bytes.len())
}

/// What one hub says comes to another, but for its last third.
fn cut(from: &mut Peer, to: &mut Peer, settles: bool) -> Option<()> {
    let bytes = spoken(from, settles)?;
    let end = bytes.len() - bytes.len() / 3;
    to.hear(&bytes[..end])
}
