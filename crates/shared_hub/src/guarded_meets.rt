//! The meetings under the lock of a shared hub with what commits.
ghost use Rattle.std.specs.Prelude.{◌≡◌, Some, slice_get};
ghost use Rattle.shared_hub.specs.Committing.{IsTurn};
ghost use Rattle.shared_hub.specs.Guarded.{EntersMeeting};

use crate::committer::Committer;
use crate::guarded::Guarded;
use disk_trait::Disk;
use group_commit::StoreError;
use hub_parts::Met;
use pass_books::BookNames;

impl<J: BookNames> Guarded<J> {
    /// Meets what commits, as `Flusher::meet` says: a commit of all that waits begins, or one whose
    /// device calls are all made is settled. This moment is entered. Refuses as that does (44, 8,
    /// 7, 1).
    pub(crate) fn meet<D: Disk>(
        &mut self,
        committer: &mut Committer<J, D>,
    ) -> Result<Met, StoreError>
        ensures { EntersMeeting D.DiskFacts self.old committer.old result self.new committer.new }
    {
        self.locked.kept();
        self.books.audit(&mut committer.pass);
        committer.flusher.kept();
        let result = committer.flusher.meet(&mut self.locked);
        committer.flusher.kept();
        self.locked.kept();
        self.books.enter(&mut committer.pass, &self.locked);
        committer.met.note(&committer.flusher);
        result
    }

    /// Shows that what commits is this hub's own: the two fit together, and book 0 has the moments
    /// of its meetings. Constant; takes no memory.
    pub fn audit_committer<D: Disk>(&mut self, committer: &mut Committer<J, D>)
        ensures turn { IsTurn D.DiskFacts self.old.locked committer.old }
        ensures book { slice_get self.old.books.moments 0 ≡ Some committer.old.pass.moments }
        ensures same { (self.new ≡ self.old) × (committer.new ≡ committer.old) }
    {
        self.locked.kept();
        committer.flusher.kept();
        self.books.audit(&mut committer.pass);
    }
}
