//! The places of a change that are named by a character beside them.
ghost use Rattle.std.specs.Prelude.{◌≡◌, ◌||◌, is_some, None, IfOk};
ghost use Rattle.placed_edits.specs.Placed.{by_numbers, is_placed};

use op_model::{Change, Lasting};
use std::alloc::AllocError;

/// The places that last which stand for the numbers of a change, where they do. The numbers of the
/// change itself say nothing there.
#[derive(Clone, Copy, Debug)]
pub struct Spots {
    /// For the `at` of an insert or a delete, and the `from` of a mark or an unmark.
    pub from: Option<Lasting>,
    /// For the `to` of a mark or an unmark.
    pub to: Option<Lasting>,
}

/// A change, and the places that stand for its numbers, where they do.
#[derive(Debug, Drop)]
pub struct PlacedChange {
    pub change: Change,
    pub spots: Spots,
}

impl Spots {
    /// None: the change has its own numbers.
    pub fn none() -> Spots
        ensures { result ≡ record { from = None; to = None } }
    {
        Spots {
            from: None,
            to: None,
        }
    }

    /// Whether a place stands for a number.
    pub fn is_placed(&self) -> bool
        ensures { result ≡ is_placed self.now }
    {
        self.from.is_some() || self.to.is_some()
    }
}

/// A change again, with these numbers in place of its own, where there are some. An error is out of
/// memory (1). Costs the copy of its text or URL.
pub fn with_numbers(
    change: &Change,
    from: Option<u32>,
    to: Option<u32>,
) -> Result<Change, AllocError>
    ensures { IfOk result (λ made. made ≡ by_numbers change.now from to) }
{
    Ok(match change {
        Change::Insert { at, text } => Change::Insert {
            at: from.unwrap_or(*at),
            text: text.copy()?,
        },
        Change::Delete { at, count } => Change::Delete {
            at: from.unwrap_or(*at),
            count: *count,
        },
        Change::Mark {
            from: first,
            to: last,
            mark,
        } => Change::Mark {
            from: from.unwrap_or(*first),
            to: to.unwrap_or(*last),
            mark: mark.copy()?,
        },
        Change::Unmark {
            from: first,
            to: last,
            key,
        } => Change::Unmark {
            from: from.unwrap_or(*first),
            to: to.unwrap_or(*last),
            key: *key,
        },
    })
}
