//! A desk over a hub that is held alone.
ghost use Rattle.std.specs.Prelude.{◌≡◌, false};
ghost use Rattle.locked_replica.specs.Hub.{state_of};
ghost use Rattle.session_threads.specs.HubCalls.{IsQuiet};

use disk_trait::Disk;
use locked_replica::Hub;
use std::marker::Model;

/// A hub that serves one session alone, the number of that session, and whether it was asked to
/// stop. Contracts see these three.
///
/// Between two commands no commit is under way; or the device failed, and each new edit is answered
/// so.
#[derive(Drop)]
pub struct HubDesk<D: Disk> {
    pub(crate) hub: Hub<D>,
    pub(crate) session: u64,
    pub(crate) is_stopping: bool,
}

impl<D: Disk> Model for HubDesk<D> {
    ghost use Rattle.locked_replica.specs.Hub.{state_of};
    ghost use Rattle.session_threads.specs.HubCalls.{IsQuiet};
    ghost use Rattle.session_threads.specs.HeldDesk.{HeldDesk};

    ghost Value = { HeldDesk D };

    ghost view = { λ desk. record {
      hub = desk.hub;
      session = desk.session;
      stopping = desk.is_stopping;
    } };

    ghost invariant = { λ desk. IsQuiet (state_of desk.hub) };
}

impl<D: Disk> HubDesk<D> {
    /// A desk over a hub in which no commit is under way, as after opening. It takes edits, which
    /// are steps of this session.
    pub fn new(hub: Hub<D>, session: u64) -> HubDesk<D>
        requires { IsQuiet (state_of hub) }
        ensures { result ≡ record { hub = hub; session = session; stopping = false } }
    {
        HubDesk {
            hub,
            session,
            is_stopping: false,
        }
    }

    /// The hub, of which the desk lets go.
    pub fn into_hub(self) -> Hub<D>
        ensures { result ≡ self.hub }
    {
        let HubDesk { hub, .. } = self;
        hub
    }
}
