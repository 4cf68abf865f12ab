//! How soon a peer is joined again.

/// What became of a try to be linked with a peer.
#[derive(Clone, Copy, Debug, PartialEq, Eq)]
pub(crate) enum Outcome {
    /// One of both took operations of the other, or the link lasted a minute.
    OfUse,
    /// The link ended soon, and neither took anything: the next one may well end so too, as between
    /// two files that part for good.
    OfNoUse,
    /// Nobody took the connection.
    NotThere,
}

/// The pause behind a link that was of use, in milliseconds.
const SHORTEST: u64 = 100;

/// The longest pause while nobody is there, which doubles up to it.
const LONGEST_ABSENCE: u64 = 5_000;

/// The pauses behind links that were of no use: the first one, and the longest. Each is four times
/// as long as the one before.
const FIRST_OF_NO_USE: u64 = 2_000;

const LONGEST_OF_NO_USE: u64 = 60_000;

/// The pauses before a peer is joined again.
#[derive(Drop)]
pub(crate) struct Pauses {
    /// The last pause while nobody was there, in milliseconds; 0 before one.
    absence: u64,
    /// The last pause behind a link of no use.
    no_use: u64,
}

impl Pauses {
    /// No pause so far.
    pub(crate) fn new() -> Pauses {
        Pauses {
            absence: 0,
            no_use: 0,
        }
    }

    /// The pause behind this outcome, in milliseconds.
    pub(crate) fn behind(&mut self, outcome: Outcome) -> u64 {
        match outcome {
            Outcome::OfUse => {
                self.absence = 0;
                self.no_use = 0;
                SHORTEST
            }
            Outcome::OfNoUse => {
                self.absence = 0;
                let more = self.no_use.saturating_mul(4);
                self.no_use = LONGEST_OF_NO_USE.min(FIRST_OF_NO_USE.max(more));
                self.no_use
            }
            Outcome::NotThere => {
                let more = self.absence.saturating_mul(2);
                self.absence = LONGEST_ABSENCE.min(SHORTEST.max(more));
                self.absence
            }
        }
    }
}
