//! A clock that counts several operations of one replica at once.
ghost use Rattle.std.specs.Prelude.{◌≡◌, ◌↔◌, OnOk, OnErr, IsErrOf, false, true};
ghost use Rattle.op_ids.specs.Clock.{count_of, advanced_by, is_clock, IsOverfull};

use crate::clock::Clock;
use crate::{ClockError, ReplicaId};
use fixed_numbers::limits::{MAX_COUNT, MAX_REPLICAS};

impl Clock {
    /// Whether `count` more operations of a replica can be counted: there would be no seventeenth
    /// replica, and no count above 2^24. Takes no memory. At most 16 steps.
    pub fn can_advance_by(&self, replica: ReplicaId, count: u64) -> bool
        ensures fits { result ≡ is_clock (advanced_by self.now replica count) }
        ensures full { result ≡ false → IsOverfull (advanced_by self.now replica count) }
        ensures rising { is_clock self.now ≡ true }
    {
        let counted = self.get(replica);
        if count == 0 {
            return true;
        }
        if count > MAX_COUNT - counted {
            return false;
        }
        if counted > 0 {
            return true;
        }
        self.len() < MAX_REPLICAS
    }

    /// Counts `count` more operations of a replica. `Limit` (7) if that would be a seventeenth
    /// replica or a count above 2^24, `Memory` (1) if a growth was refused, which only a new
    /// replica needs; both leave the clock as it was. At most 16 steps.
    pub fn advance_by(&mut self, replica: ReplicaId, count: u64) -> Result<(), ClockError>
        ensures ok { OnOk result (self.new ≡ advanced_by self.old replica count) }
        ensures limit { IsErrOf result ClockError.Limit
            ↔ (is_clock (advanced_by self.old replica count) ≡ false) }
        ensures full { IsErrOf result ClockError.Limit
            → IsOverfull (advanced_by self.old replica count) }
        ensures memory { IsErrOf result ClockError.Memory → count_of self.old replica ≡ 0 }
        ensures err { OnErr result (self.new ≡ self.old) }
    {
        if !self.can_advance_by(replica, count) {
            return Err(ClockError::Limit);
        }
        if count == 0 {
            return Ok(());
        }
        let counted = self.get(replica);
        self.put(replica, counted + count)?;
        Ok(())
    }
}
