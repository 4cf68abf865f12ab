//! A reader that ends where no session begins so.
ghost use Rattle.std.specs.Prelude.{◌≡◌, ◌++◌, [], List, ℕ, Ok, IfOk, true, false, take};
ghost use Rattle.std.specs.Io.{ReadsAtMost};
ghost use Rattle.std.specs.Io.KnownBytes.{ReadConsumes};
ghost use Rattle.first_bytes.specs.Beginnings.{is_foreign_after, own_bytes};

use crate::front::Front;
use std::io;
use std::io::Read;

/// A reader that ends where the first bytes are none of a session: nothing of a piece in which that
/// shows is handed on, nor what comes after. A line of a session can't end before it shows, so none
/// is served. Anything else is handed on byte for byte.
#[derive(Drop)]
pub struct FirstLook<S: Read> {
    reader: S,
    front: Front,
}

impl<S: Read> FirstLook<S> {
    /// A reader of which nothing was read so far.
    pub fn new(reader: S) -> FirstLook<S>
        ensures { result ≡ record { reader = reader; front = Front.Nothing } }
    {
        FirstLook {
            reader,
            front: Front::Nothing,
        }
    }
}

impl<S: Read> Read for FirstLook<S> {
    ghost use Rattle.first_bytes.specs.Beginnings.{own_bytes};

    ghost remaining = { λ look. own_bytes look.front (S.remaining look.reader) };

    fn read(&mut self, buf: &mut [u8]) -> io::Result<usize>
        ensures bound { ReadsAtMost result buf.new }
        ensures bytes { ReadConsumes (own_bytes self.old.front (S.remaining self.old.reader))
            (own_bytes self.new.front (S.remaining self.new.reader)) result buf.new }
        ensures over { is_foreign_after self.old.front [] ≡ true → result ≡ Ok 0 }
        ensures foreign { IfOk result (λ count. is_foreign_after self.new.front [] ≡ true
            → count ≡ 0) }
        ensures seen { IfOk result (λ count. is_foreign_after self.new.front [] ≡ false
            → (more : List ℕ) → is_foreign_after self.new.front more
            ≡ is_foreign_after self.old.front (take count buf.new ++ more)) }
    {
        if self.front.is_foreign() {
            return Ok(0);
        }
        let count = self.reader.read(buf)?;
        self.front = self.front.behind(&buf[..count]);
        Ok(if self.front.is_foreign() { 0 } else { count })
    }
}
