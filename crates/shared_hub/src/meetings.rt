//! The flusher as each meeting left it.
ghost use Rattle.std.specs.Prelude.{◌≡◌, [], ◌∷◌, IfOk};

use disk_trait::Disk;
use hub_parts::Flusher;
use pass_books::{Book, Share, open};
use std::alloc::{AllocError, Global};
use std::marker::Model;

/// What each meeting left of the flusher. Contracts see these, newest first; they take no bytes.
#[derive(Drop)]
pub(crate) struct Meetings<D: Disk> {
    book: Book<Flusher<D>>,
    share: Share<Flusher<D>>,
}

impl<D: Disk> Model for Meetings<D> {
    ghost use Rattle.std.specs.Prelude.{◌≡◌, List};
    ghost use Rattle.hub_parts.specs.Flusher.{FlusherHeld};

    ghost Value = { List (FlusherHeld D) };

    ghost view = { λ m. m.share.moments };

    ghost invariant = { λ m. m.book.name ≡ m.share.name };
}

impl<D: Disk> Meetings<D> {
    /// No meeting so far. An error is out of memory (1).
    pub(crate) fn open(alloc: Global) -> Result<Meetings<D>, AllocError>
        ensures { IfOk result (λ it. it ≡ []) }
    {
        let (book, share) = open(alloc)?;
        Ok(Meetings { book, share })
    }

    /// Notes one that left the flusher so. Constant; takes no memory.
    pub(crate) fn note(&mut self, flusher: &Flusher<D>)
        ensures { self.new ≡ flusher.now ∷ self.old }
    {
        self.book.enter(&mut self.share, flusher);
    }
}
