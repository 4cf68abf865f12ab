//! Places of a replica's documents that last.
ghost use Rattle.std.specs.Prelude.{◌≡◌, length, nat_le, Some, None, if◌then◌else◌};
ghost use Rattle.std.specs.Prelude.{IfOk, IfSome, is_some};
ghost use Rattle.op_model.specs.Lasting.{at_of, place_of};
ghost use Rattle.op_model.specs.Text.{visible};
ghost use Rattle.replica_core.specs.Places.{anchors_of, are_within, places_of};

use crate::docs::find;
use crate::replica::Replica;
use doc_core::Doc;
use op_model::{Anchor, Lasting, Neighbour};
use std::alloc::AllocError;

impl Replica {
    /// The place after `at` visible characters of a document, unsettled operations included, that
    /// stays with one of its neighbours from now on; `None` where there are fewer. Takes no memory.
    /// A search by halves for the document, and what `Doc::place` costs.
    pub fn place(&self, doc: u32, at: usize, side: Neighbour) -> Option<Lasting>
        ensures { result ≡ (if nat_le at (length (visible self.now.list doc))
            then Some (place_of self.now.list doc at side) else None) }
    {
        let empty = Doc::new(self.log.list.allocator(), doc);
        find(&self.log.docs, &empty).place(at, side)
    }

    /// How many visible characters of a document, unsettled operations included, stand before a
    /// place that lasts, or `None` where the character that it stays with isn't known; a removed
    /// one is known. Takes no memory. A search by halves for the document, and what `Doc::at`
    /// costs.
    pub fn at(&self, doc: u32, place: &Lasting) -> Option<usize>
        ensures { result ≡ at_of self.now.list doc place.now }
    {
        let empty = Doc::new(self.log.list.allocator(), doc);
        find(&self.log.docs, &empty).at(place)
    }

    /// The places after these numbers of visible characters of a document, unsettled operations
    /// included, that stay with one of their neighbours from now on; `None` if one of the numbers
    /// is beyond the end of the text. An error is out of memory (1). Costs a `place` for each.
    pub fn anchors(
        &self,
        doc: u32,
        at: &[u32],
        side: Neighbour,
    ) -> Result<Option<Vec<Lasting>>, AllocError>
        ensures within { IfOk result
            (λ found. is_some found ≡ are_within self.now.list doc at.now) }
        ensures places { IfOk result
            (λ found. IfSome found (λ v. v.items ≡ anchors_of self.now.list doc at.now side)) }
    {
        // The kit's borrow checker looks up the types that a place holds by the names in a
        // function.
        let _: Option<Anchor> = None;
        let mut found = Vec::with_capacity(self.log.list.allocator(), at.len())?;
        for number in at {
            let Some(place) = self.place(doc, *number as usize, side) else {
                return Ok(None);
            };
            found.push(place)?;
        }
        Ok(Some(found))
    }

    /// How many visible characters of a document, unsettled operations included, stand before each
    /// of these places, or `None` for a place beside a character that isn't known. An error is out
    /// of memory (1). Costs an `at` for each.
    pub fn places(&self, doc: u32, anchors: &[Lasting]) -> Result<Vec<Option<usize>>, AllocError>
        ensures { IfOk result
            (λ found. found.items ≡ places_of self.now.list doc anchors.now) }
    {
        let mut found = Vec::with_capacity(self.log.list.allocator(), anchors.len())?;
        for anchor in anchors {
            found.push(self.at(doc, anchor))?;
        }
        Ok(found)
    }
}
