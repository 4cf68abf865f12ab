//! How far a commit has come.
ghost use Rattle.std.specs.Prelude.{◌≡◌};

/// The device call that a commit makes next. Between two commits it is `Idle`, which makes none.
#[derive(Clone, Copy, Debug, PartialEq, Eq)]
pub enum Phase {
    /// No commit is under way.
    Idle,
    /// The write of the k-th new page, counted from 0: data pages in the order of the stream, then
    /// table pages.
    Pages(usize),
    /// The write of 0 into the stale gate. It comes only where that gate reads 1.
    Close,
    /// The sync of the new pages and the closed gate.
    Sync1,
    /// The write of the stale slot's body.
    Body,
    /// The sync of that body.
    Sync2,
    /// The write of 1 into that slot's gate.
    Gate,
    /// The sync of the gate. After it that slot is live.
    Sync3,
}

impl Phase {
    ghost use Rattle.group_commit.specs.Begin.{is_idle};

    /// Whether no commit is under way.
    pub fn is_idle(self) -> bool
        ensures { result ≡ is_idle self }
    {
        match self {
            Phase::Idle => true,
            _ => false,
        }
    }
}
