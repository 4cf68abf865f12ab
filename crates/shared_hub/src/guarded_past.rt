//! What is read of a document's past under the lock of a shared hub.
ghost use Rattle.std.specs.Prelude.{◌≡◌, IfOk, option_map};
ghost use Rattle.list_counts.specs.Versions.{versions as versions_of};
ghost use Rattle.op_model.specs.Text.{rev as rev_of};
ghost use Rattle.replica_core.specs.Past.{spans_past, text_past};

use crate::guarded::Guarded;
use crate::shown::Shown;
use list_counts::Version;
use op_model::{Span, Text};
use pass_books::BookNames;
use std::alloc::AllocError;

impl<J: BookNames> Guarded<J> {
    /// The text of a document as it was when it had so many operations; none if it has fewer. An
    /// error is out of memory (1). Costs what `Locked::text_at` does.
    pub(crate) fn text_at(&self, doc: u32, rev: usize) -> Result<Option<Text>, AllocError>
        ensures { IfOk result
            (λ found. found ≡ text_past self.now.locked.replica.list doc rev) }
    {
        self.locked.text_at(doc, rev)
    }

    /// The spans of a document as it was likewise. Costs what `Locked::spans_at` does.
    pub(crate) fn spans_at(&self, doc: u32, rev: usize) -> Result<Option<Vec<Span>>, AllocError>
        ensures { IfOk result (λ found. option_map (λ v. v.items) found
            ≡ spans_past self.now.locked.replica.list doc rev) }
    {
        self.locked.spans_at(doc, rev)
    }

    /// The versions of a document, of at most `every` operations each. An error is out of memory
    /// (1). Costs what `Locked::versions` does.
    pub(crate) fn versions(&self, doc: u32, every: u32) -> Result<Shown<Vec<Version>>, AllocError>
        ensures rev { IfOk result (λ it. it.rev ≡ rev_of self.now.locked.replica.list doc) }
        ensures versions { IfOk result
            (λ it. it.content.items ≡ versions_of self.now.locked.replica.list doc every) }
    {
        Ok(Shown {
            rev: self.locked.rev(doc) as u64,
            content: self.locked.versions(doc, every)?,
        })
    }
}
