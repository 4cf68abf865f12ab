//! How a hub comes to be shared.
ghost use Rattle.std.specs.Prelude.{◌≡◌, All, IfOk, IfErr, drop, length};
ghost use Rattle.hub_parts.specs.Opening.{IsOpened};
ghost use Rattle.pass_books.specs.Accounts.{names_of};
ghost use Rattle.shared_hub.specs.Books.{IsFresh, new_passes};

use crate::committer::Committer;
use crate::guarded::Guarded;
use crate::meetings::Meetings;
use crate::passes::{Books, Pass};
use crate::shared::Shared;
use disk_trait::Disk;
use hub_parts::{Flusher, Locked, Parts};
use pass_books::{Book, BookNames, Share, open};
use std::alloc::{AllocError, Global};
use std::marker::Model;

/// How many passes a shared hub has: they are numbered from 1.
pub const PASSES: usize = 48;

/// Books that no lock has yet, one for each number from 0 to 48, with the shares of them. Contracts
/// see their names, by number.
#[derive(Drop)]
pub struct Opened {
    books: Vec<Book<Locked>>,
    shares: Vec<Share<Locked>>,
}

impl Model for Opened {
    ghost use Rattle.std.specs.Prelude.{◌≡◌, List, All, vec_len};
    ghost use Rattle.pass_books.specs.Accounts.{Name, names_of};
    ghost use Rattle.shared_hub.specs.Books.{IsFresh};

    ghost Value = { List Name };

    ghost view = { λ o. names_of o.books.items };

    ghost invariant = { λ o. (vec_len o.books ≡ 49)
        × (names_of o.shares.items ≡ names_of o.books.items)
        × All IsFresh o.books.items
        × All IsFresh o.shares.items };
}

/// A shared hub, what commits for it, and its passes.
#[derive(Drop)]
pub struct Named<J: BookNames, D: Disk> {
    pub shared: Shared<J>,
    pub committer: Committer<J, D>,
    /// They are numbered from 1, in this order.
    pub passes: Vec<Pass<J>>,
}

impl Opened {
    /// Opens the books. An error is out of memory (1).
    pub fn new(alloc: Global) -> Result<Opened, AllocError> {
        let mut books = Vec::new(alloc);
        let mut shares = Vec::new(alloc);
        // The book with number 0 is the flusher's.
        while books.len() <= PASSES {
            let (book, share) = open(alloc)?;
            books.push(book)?;
            shares.push(share)?;
        }
        Ok(Opened { books, shares })
    }

    /// Puts the locked part of a hub that was just opened under a lock, with these books. Gives 48
    /// passes, numbered from 1, and what commits for it. An error is out of memory (1), with the
    /// flusher.
    pub fn share<J: BookNames, D: Disk>(
        self,
        alloc: Global,
        parts: Parts<D>,
    ) -> Result<Named<J, D>, Flusher<D>>
        requires names { self ≡ J.names }
        requires opened { IsOpened parts.locked parts.flusher }
        // The pass with number 0 is the flusher's.
        ensures passes { IfOk result (λ it. it.passes.items ≡ drop 1 (new_passes 49)) }
        ensures flusher { IfOk result (λ it. it.committer.flusher ≡ parts.flusher) }
        ensures refused { IfErr result (λ flusher. flusher ≡ parts.flusher) }
    {
        let Opened { books, shares } = self;
        let Parts { locked, flusher } = parts;
        let Ok(mut passes) = numbered(alloc, shares) else {
            return Err(flusher);
        };
        let Ok(met) = Meetings::open(alloc) else {
            return Err(flusher);
        };
        let mut own = passes.remove(0);
        let mut books = Books::of(books);
        books.audit(&mut own);
        locked.kept();
        books.enter(&mut own, &locked);
        let committer = Committer::new(flusher, own, met, &locked);
        let shared = Shared::new(Guarded::new(locked, books));
        Ok(Named {
            shared,
            committer,
            passes,
        })
    }
}

/// The passes with these shares, by number. An error is out of memory (1).
fn numbered<J: BookNames>(
    alloc: Global,
    shares: Vec<Share<Locked>>,
) -> Result<Vec<Pass<J>>, AllocError>
    requires names { names_of shares.items ≡ J.names }
    requires fresh { All IsFresh shares.items }
    ensures { IfOk result (λ passes. passes.items ≡ new_passes (length J.names)) }
{
    let mut passes = Vec::new(alloc);
    for share in shares {
        passes.push(Pass::of(passes.len(), share))?;
    }
    Ok(passes)
}
