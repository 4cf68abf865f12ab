//! Marks, what they are decided by, and all marks of a character.
ghost use Rattle.std.specs.Prelude.{◌≡◌, IfOk};
ghost use Rattle.op_model.specs.Marks.{key_of};

use crate::comment_id::{CommentId, CommentIds};
use crate::url::Url;
use std::alloc::AllocError;

/// A mark, as an operation puts it on text.
#[derive(Debug, Drop, PartialEq, Eq)]
pub enum Mark {
    Strong,
    Em,
    Link(Url),
    Comment(CommentId),
}

/// What is decided by itself: for each key the covering mark operation with the greatest id says
/// whether there is a mark.
#[derive(Clone, Copy, Debug, PartialEq, Eq, Hash)]
pub enum MarkKey {
    Strong,
    Em,
    Link,
    Comment(CommentId),
}

/// All marks of a character.
#[derive(Debug, Drop, PartialEq, Eq)]
pub struct Marks {
    pub strong: bool,
    pub em: bool,
    pub link: Option<Url>,
    /// In the order of their numbers, where the marks are those of a character.
    pub comments: CommentIds,
}

impl Mark {
    /// Which decision the mark is about.
    pub fn key(&self) -> MarkKey
        ensures { result ≡ key_of self.now }
    {
        match self {
            Mark::Strong => MarkKey::Strong,
            Mark::Em => MarkKey::Em,
            Mark::Link(_) => MarkKey::Link,
            Mark::Comment(id) => MarkKey::Comment(*id),
        }
    }

    /// The same mark again. An error is out of memory (1).
    pub fn copy(&self) -> Result<Mark, AllocError>
        ensures { IfOk result (λ copied. copied ≡ self.now) }
    {
        Ok(match self {
            Mark::Strong => Mark::Strong,
            Mark::Em => Mark::Em,
            Mark::Link(url) => Mark::Link(url.copy()?),
            Mark::Comment(id) => Mark::Comment(*id),
        })
    }
}

impl Marks {
    /// The same marks again. An error is out of memory (1).
    pub fn copy(&self) -> Result<Marks, AllocError>
        ensures { IfOk result (λ copied. copied ≡ self.now) }
    {
        let link = match &self.link {
            Some(url) => Some(url.copy()?),
            None => None,
        };
        Ok(Marks {
            strong: self.strong,
            em: self.em,
            link,
            comments: self.comments.copy()?,
        })
    }
}
