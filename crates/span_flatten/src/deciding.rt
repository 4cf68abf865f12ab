//! Which of them decide.
ghost use Rattle.std.specs.Prelude.{◌≡◌, ◌&&◌, ◌==◌, ℕ, List, [], filter, not, IfOk, OnOk};
ghost use Rattle.std.specs.Prelude.{option_and_then};
ghost use Rattle.std.specs.Option.{option_copied};
ghost use Rattle.op_model.specs.declared.marking.Marking as stored;
ghost use Rattle.op_model.specs.Spans.{is_same_link, is_same_marks, url_of, with_number};
ghost use Rattle.op_model.specs.Rising.{IsUp};
ghost use Rattle.comment_marks.specs.Standing.{standing};
ghost use Rattle.span_flatten.specs.Deciding.{Decides, IsNoted};
ghost use Rattle.span_flatten.specs.Formatting.{marks_in};
ghost use Rattle.span_flatten.specs.Picking.{picked};

use crate::discussed::Discussed;
use crate::rank::Rank;
use crate::ranks::Ranks;
use op_model::{Mark, MarkKey, Marking, Marks, Url};
use std::alloc::{AllocError, Global};

/// What decides the marks of a character: for each key the mark operations that have begun and not
/// ended.
#[derive(Drop)]
pub struct Deciding {
    pub strong: Ranks,
    pub em: Ranks,
    pub link: Ranks,
    pub comments: Discussed,
}

impl Deciding {
    /// None. Takes no memory.
    pub(crate) fn new(alloc: Global) -> Deciding
        ensures none { (ms : List stored.Marking) → Decides result ms [] }
        ensures noted { IsNoted result.comments [] }
    {
        Deciding {
            strong: Ranks::new(alloc),
            em: Ranks::new(alloc),
            link: Ranks::new(alloc),
            comments: Discussed::new(alloc),
        }
    }

    /// The i-th mark operation begins. An error is out of memory (1). A search among those of its
    /// key, and among the comments.
    pub(crate) fn begin(
        &mut self,
        alloc: Global,
        i: usize,
        markings: &[Marking],
    ) -> Result<(), AllocError>
        ensures noted { OnOk result ((ids : List ℕ) → IsNoted self.old.comments ids
            → IsNoted self.new.comments ids) }
        ensures decides { OnOk result ((set : List ℕ) → IsUp set → Decides self.old markings.now set
            → Decides self.new markings.now (with_number i set)) }
    {
        let Some(marking) = markings.get(i) else {
            return Ok(());
        };
        let rank = Rank::of(marking, i);
        match marking.key {
            MarkKey::Strong => self.strong.insert(rank),
            MarkKey::Em => self.em.insert(rank),
            MarkKey::Link => self.link.insert(rank),
            MarkKey::Comment(id) => self.comments.begin(alloc, id, i, markings),
        }
    }

    /// The i-th mark operation ends. An error is out of memory (1). A search among those of its
    /// key, and among the comments.
    pub(crate) fn end(&mut self, i: usize, markings: &[Marking]) -> Result<(), AllocError>
        ensures noted { OnOk result ((ids : List ℕ) → IsNoted self.old.comments ids
            → IsNoted self.new.comments ids) }
        ensures decides { OnOk result ((set : List ℕ) → IsUp set → Decides self.old markings.now set
            → Decides self.new markings.now (filter (λ j. not (j == i)) set)) }
    {
        let Some(marking) = markings.get(i) else {
            return Ok(());
        };
        let rank = Rank::of(marking, i);
        match marking.key {
            MarkKey::Strong => self.strong.remove(rank),
            MarkKey::Em => self.em.remove(rank),
            MarkKey::Link => self.link.remove(rank),
            MarkKey::Comment(id) => self.comments.end(id, i, markings)?,
        }
        Ok(())
    }

    /// The marks of a character that just the mark operations that have begun and not ended cover.
    /// An error is out of memory (1). A copy of the link, and of the comments that stand.
    pub(crate) fn marks(&self, alloc: Global, markings: &[Marking]) -> Result<Marks, AllocError>
        ensures { IfOk result (λ marks. (set : List ℕ) → IsUp set
            → Decides self.now markings.now set → marks ≡ marks_in (picked markings.now set)) }
    {
        Ok(Marks {
            strong: self.strong.decided(markings).is_some(),
            em: self.em.decided(markings).is_some(),
            link: link_of(self.link.decided(markings))?,
            comments: self.comments.standing(alloc)?,
        })
    }

    /// Whether these are the marks, which list the comments that were noted. Takes no memory.
    pub(crate) fn are_marks(&self, marks: &Marks, markings: &[Marking]) -> bool
        ensures { (set : List ℕ) → IsUp set → Decides self.now markings.now set
            → IsNoted self.now.comments marks.now.comments
            → result ≡ is_same_marks marks.now (marks_in (picked markings.now set)) }
    {
        all(
            marks.strong == self.strong.decided(markings).is_some(),
            marks.em == self.em.decided(markings).is_some(),
            leads_to(self.link.decided(markings), &marks.link),
            self.comments.are_noted(),
        )
    }

    /// Notes the comments that stand. Linear in those that differ from those that were noted.
    pub(crate) fn note(&mut self)
        ensures { (ms : List stored.Marking) (set : List ℕ) → Decides self.old ms set
            → Decides self.new ms set × IsNoted self.new.comments (standing (picked ms set)) }
    {
        self.comments.note();
    }
}

/// Whether all four parts of marks are the same.
fn all(strong: bool, em: bool, link: bool, comments: bool) -> bool
    ensures { result ≡ (strong && em && link && comments) }
{
    strong && em && link && comments
}

/// Whether a link leads where a mark says.
fn leads_to(mark: Option<&Mark>, link: &Option<Url>) -> bool
    ensures { result
        ≡ is_same_link link.now (option_and_then url_of (option_copied mark.entry)) }
{
    match (mark, link) {
        (Some(Mark::Link(url)), Some(other)) => *other == *url,
        (Some(Mark::Link(_)), None) => false,
        (_, Some(_)) => false,
        (_, None) => true,
    }
}

/// Where a link leads. An error is out of memory (1).
fn link_of(mark: Option<&Mark>) -> Result<Option<Url>, AllocError>
    ensures { IfOk result (λ url. url ≡ option_and_then url_of (option_copied mark.entry)) }
{
    match mark {
        Some(Mark::Link(url)) => Ok(Some(url.copy()?)),
        _ => Ok(None),
    }
}
