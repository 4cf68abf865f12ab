//! The calls of a hub that commit its list.
ghost use Rattle.std.specs.Prelude.{◌≡◌, IfOk};
ghost use Rattle.op_model.specs.Machine.{begin as begin_event, device_step as device_event};
ghost use Rattle.op_model.specs.Machine.{settle as settle_event};
ghost use Rattle.locked_replica.specs.Calls.{IsCall};
ghost use Rattle.locked_replica.specs.Hub.{is_through};
ghost use Rattle.locked_replica.specs.Steps.{begin_answered, stepped, settle_answered};

use crate::hub::Hub;
use crate::refusal::HubRefusal;
use disk_trait::Disk;
use group_commit::{Phase, StoreError};
use hub_parts::Met;

impl<D: Disk> Hub<D> {
    /// Whether the last device call of a commit is made, and the commit isn't settled yet. Takes no
    /// memory.
    fn is_through(&self) -> bool
        ensures { result ≡ is_through self.now }
    {
        self.locked.kept();
        self.flusher.kept();
        self.flusher.is_due() && self.flusher.phase().is_idle()
    }

    /// Begins a commit of all operations that aren't settled, and answers the length of the list
    /// that it commits; `None` where all are settled. It makes no device call.
    ///
    /// Refuses, in this order, with 44 where the device failed, which is told then, 8 where there
    /// is a commit, 7 where there is no further version, and 1 where a growth was refused. A
    /// refused call changes nothing else. It is a meeting of the two parts, and costs what that
    /// does.
    pub fn begin(&mut self) -> Result<Option<u64>, HubRefusal>
        ensures call { IsCall D.DiskFacts begin_event (begin_answered result) self.old self.new }
    {
        self.locked.kept();
        self.flusher.kept();
        if !self.flusher.has_failed() && self.flusher.is_due() {
            return Err(HubRefusal::Store(StoreError::Busy));
        }
        let answer = self.flusher.meet(&mut self.locked);
        self.locked.kept();
        self.flusher.kept();
        match answer {
            Ok(Met::Begun(count)) => Ok(Some(count)),
            Ok(Met::Nothing) => Ok(None),
            Ok(Met::Settled(_)) => unreachable!(),
            Err(error) => Err(HubRefusal::Store(error)),
        }
    }

    /// Makes the next device call of the commit, and answers the phase whose call it was; `Idle`
    /// where no commit is under way. After the call of `Sync3` the commit is through. Takes no
    /// memory.
    ///
    /// Refuses with 44 where a device call failed before, and with 51 or 52 where the device fails
    /// in this one. One write of at most 4,096 bytes or one sync.
    pub fn device_step(&mut self) -> Result<Phase, HubRefusal>
        ensures call { IsCall D.DiskFacts device_event (stepped result) self.old self.new }
        ensures made { IfOk result (λ phase. phase ≡ self.old.store.phase) }
    {
        self.locked.kept();
        self.flusher.kept();
        let answer = self.flusher.device_step();
        self.flusher.kept();
        match answer {
            Ok(phase) => Ok(phase),
            Err(error) => Err(HubRefusal::Store(error)),
        }
    }

    /// Settles the commit that is through, and answers the settled number. Takes no memory.
    ///
    /// Refuses with 44 where the device failed, which is told then, else with 8 where no commit is
    /// through. A refused call changes nothing else. It is a meeting of the two parts.
    pub fn settle(&mut self) -> Result<u64, HubRefusal>
        ensures call { IsCall D.DiskFacts settle_event (settle_answered result) self.old self.new }
    {
        self.locked.kept();
        self.flusher.kept();
        if !self.flusher.has_failed() && !self.is_through() {
            return Err(HubRefusal::Store(StoreError::Busy));
        }
        let answer = self.flusher.meet(&mut self.locked);
        self.locked.kept();
        self.flusher.kept();
        match answer {
            Ok(Met::Settled(count)) => Ok(count),
            Ok(Met::Begun(_)) => unreachable!(),
            Ok(Met::Nothing) => unreachable!(),
            Err(error) => Err(HubRefusal::Store(error)),
        }
    }
}
