//! What is read of a document's past in a shared hub.
ghost use Rattle.std.specs.Prelude.{◌≡◌, IfOk, option_map};
ghost use Rattle.list_counts.specs.Versions.{versions as versions_of};
ghost use Rattle.op_model.specs.Text.{rev as rev_of};
ghost use Rattle.replica_core.specs.Past.{spans_past, text_past};
ghost use Rattle.shared_hub.specs.Shared.{MomentOf};

use crate::passes::Pass;
use crate::shared::Shared;
use crate::shown::Shown;
use list_counts::Version;
use op_model::{Span, Text};
use pass_books::BookNames;
use std::alloc::AllocError;
use std::sync::Wait;

impl<J: BookNames> Shared<J> {
    /// The text of a document as it was when it had so many operations, the first ones in this
    /// list; none if it has fewer. An error is out of memory (1). Costs what `Locked::text_at`
    /// does, under the lock.
    pub fn text_at<R: Wait>(
        &self,
        rt: &R,
        pass: &mut Pass<J>,
        doc: u32,
        rev: usize,
    ) -> Result<Option<Text>, AllocError>
        ensures same { pass.new ≡ pass.old }
        ensures moment { IfOk result
            (λ found. MomentOf pass.old (λ l. found ≡ text_past l.replica.list doc rev)) }
    {
        let mut guard = self.guarded.lock(rt);
        guard.audit(pass);
        guard.text_at(doc, rev)
    }

    /// The spans of a document as it was likewise. Costs what `Locked::spans_at` does, under the
    /// lock.
    pub fn spans_at<R: Wait>(
        &self,
        rt: &R,
        pass: &mut Pass<J>,
        doc: u32,
        rev: usize,
    ) -> Result<Option<Vec<Span>>, AllocError>
        ensures same { pass.new ≡ pass.old }
        ensures moment { IfOk result (λ found. MomentOf pass.old
            (λ l. option_map (λ v. v.items) found ≡ spans_past l.replica.list doc rev)) }
    {
        let mut guard = self.guarded.lock(rt);
        guard.audit(pass);
        guard.spans_at(doc, rev)
    }

    /// The versions of a document, unsettled operations included, of at most `every` operations
    /// each. An error is out of memory (1). Costs what `Locked::versions` does, under the lock.
    pub fn versions<R: Wait>(
        &self,
        rt: &R,
        pass: &mut Pass<J>,
        doc: u32,
        every: u32,
    ) -> Result<Shown<Vec<Version>>, AllocError>
        ensures same { pass.new ≡ pass.old }
        ensures moment { IfOk result (λ it. MomentOf pass.old
            (λ l. (it.rev ≡ rev_of l.replica.list doc)
            × (it.content.items ≡ versions_of l.replica.list doc every))) }
    {
        let mut guard = self.guarded.lock(rt);
        guard.audit(pass);
        guard.versions(doc, every)
    }
}
