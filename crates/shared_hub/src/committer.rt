//! What commits for a shared hub.
ghost use Rattle.std.specs.Prelude.{◌≡◌, [], ◌∷◌};
ghost use Rattle.hub_parts.specs.Fitting.{FitTogether, side_of};
ghost use Rattle.hub_parts.specs.Flusher.{IsFlusher};
ghost use Rattle.shared_hub.specs.Committing.{with_met};
ghost use Rattle.shared_hub.specs.Going.{Goes};

use crate::meetings::Meetings;
use crate::passes::Pass;
use disk_trait::Disk;
use group_commit::{Phase, StoreError};
use hub_parts::{Flusher, Locked};
use pass_books::BookNames;
use std::alloc::AllocError;
use std::marker::Model;

/// The flusher of a shared hub, with the pass by which it meets what stands under the lock.
/// Contracts see these two, and what each meeting left.
///
/// The type keeps that the flusher fits what its last meeting left under the lock. The pass has
/// that moment, and the lock's books have it too: so the flusher meets the lock that it fits.
#[derive(Drop)]
pub struct Committer<J: BookNames, D: Disk> {
    pub(crate) flusher: Flusher<D>,
    pub(crate) pass: Pass<J>,
    pub(crate) met: Meetings<D>,
}

impl<J: BookNames, D: Disk> Model for Committer<J, D> {
    ghost use Rattle.shared_hub.specs.Committing.{CommitterHeld, IsCommitter, with_met};

    ghost Value = { CommitterHeld D };

    ghost view = { λ c. with_met c.flusher c.pass c.met };

    ghost invariant = { λ c. IsCommitter D.DiskFacts (with_met c.flusher c.pass c.met) };
}

impl<J: BookNames, D: Disk> Committer<J, D> {
    /// A flusher that fits this locked part, with the pass that has this moment alone.
    pub(crate) fn new(
        flusher: Flusher<D>,
        pass: Pass<J>,
        met: Meetings<D>,
        locked: &Locked,
    ) -> Committer<J, D>
        requires number { pass.number ≡ 0 }
        requires moment { pass.moments ≡ locked.now ∷ [] }
        requires none { met ≡ [] }
        requires fits { FitTogether locked.now (side_of flusher) }
        ensures { result ≡ with_met flusher pass (flusher ∷ []) }
    {
        locked.kept();
        flusher.kept();
        let mut met = met;
        met.note(&flusher);
        Committer { flusher, pass, met }
    }

    /// Tells what the flusher keeps. Costs nothing.
    pub fn kept(&self)
        ensures { IsFlusher D.DiskFacts self.now.flusher }
    {
        self.flusher.kept();
    }

    /// Makes room for the most that a meeting takes, as `Flusher::reserve` does. An error is out of
    /// memory (1).
    pub(crate) fn reserve(&mut self) -> Result<(), AllocError>
        ensures { self.new ≡ self.old }
    {
        self.flusher.reserve()
    }

    /// Makes the next device call of the commit under way, as `Flusher::device_step` does, and
    /// refuses as that does (44, 51, 52).
    pub(crate) fn device_step(&mut self) -> Result<Phase, StoreError>
        ensures goes { Goes D.DiskFacts self.old.flusher self.new.flusher }
        ensures same { self.new ≡ record self.old { flusher = self.new.flusher } }
    {
        self.flusher.kept();
        let result = self.flusher.device_step();
        self.flusher.kept();
        result
    }

    /// Whether a device call has failed, so that the file must be opened again. Takes no memory.
    pub fn has_failed(&self) -> bool
        ensures { result ≡ self.now.flusher.store.failed }
    {
        self.flusher.has_failed()
    }

    /// The flusher, which meets nothing any more.
    pub fn into_flusher(self) -> Flusher<D>
        ensures { result ≡ self.flusher }
    {
        let Committer { flusher, .. } = self;
        flusher
    }
}
