//! Which marks are the same, and which mark operation decides.
ghost use Rattle.std.specs.Prelude.{◌≡◌};
ghost use Rattle.std.specs.Option.{option_copied};
ghost use Rattle.op_model.specs.Marks.{greater as greater_of, is_key};
ghost use Rattle.op_model.specs.Spans.{is_same_link, is_same_marks};

use crate::mark::{MarkKey, Marks};
use crate::marking::Marking;
use crate::url::Url;

impl MarkKey {
    /// Whether both are about one decision. Constant.
    pub fn is_same(&self, other: &MarkKey) -> bool
        ensures { result ≡ is_key self.now other.now }
    {
        match (self, other) {
            (MarkKey::Strong, MarkKey::Strong) => true,
            (MarkKey::Em, MarkKey::Em) => true,
            (MarkKey::Link, MarkKey::Link) => true,
            (MarkKey::Comment(a), MarkKey::Comment(b)) => *a == *b,
            _ => false,
        }
    }
}

impl Marking {
    /// Of this mark operation and another, if there is one, the one with the greater id. Constant.
    pub fn greater<'a>(&'a self, other: Option<&'a Marking>) -> &'a Marking
        ensures { result.now ≡ greater_of self.now (option_copied other.entry) }
    {
        match other {
            Some(other) if self.id.is_below(other.id) => other,
            _ => self,
        }
    }
}

impl Marks {
    /// Whether the marks are equal: links are equal where their URLs are. Linear in them.
    pub fn are_same(&self, other: &Marks) -> bool
        ensures { result ≡ is_same_marks self.now other.now }
    {
        self.strong == other.strong
            && self.em == other.em
            && has_same_link(&self.link, &other.link)
            && self.comments == other.comments
    }
}

fn has_same_link(a: &Option<Url>, b: &Option<Url>) -> bool
    ensures { result ≡ is_same_link a.now b.now }
{
    match (a, b) {
        (None, None) => true,
        (Some(a), Some(b)) => *a == *b,
        _ => false,
    }
}
