//! What a head says by one of its fields.
ghost use Rattle.std.specs.Prelude.{◌++◌, ◌∷◌, [], All, length, List, ℕ};
ghost use Rattle.httparse.specs.Spans.{IsHeaderWithin, header_bytes};
ghost use Rattle.websocket.specs.Headers.{fields_of};
ghost use Rattle.web_guests.specs.Stating.{States, said_by, values_of};

use crate::letters::is_same;
use httparse::spans::HeaderSpan;

/// What a head says by one of its fields, which is to stand there at most once.
#[derive(Clone, Copy, Debug, Drop, PartialEq, Eq)]
pub enum Stated<'h> {
    /// It isn't there.
    Never,
    /// It is there once, with this value.
    Once(&'h [u8]),
    /// It is there more than once.
    Often,
}

impl<'h> Stated<'h> {
    /// What is said by the fields of this name, in any case.
    pub(crate) fn of(head: &'h [u8], spans: &[HeaderSpan], name: &[u8]) -> Stated<'h>
        requires { All (IsHeaderWithin (length head.now)) spans.now }
        ensures { States result (values_of (fields_of head.now spans.now) name.now) }
    {
        let mut stated = Stated::Never;
        for span in spans {
            stated = stated.and(head, *span, name);
        }
        stated
    }

    /// What is said once one field more was looked at.
    fn and(self, head: &'h [u8], span: HeaderSpan, name: &[u8]) -> Stated<'h>
        requires { IsHeaderWithin (length head.now) span }
        ensures { (values : List (List ℕ)) → States self.entry values
            → States result (values ++ said_by name.now (header_bytes head.now span)) }
    {
        if is_same(span.name.of(head), name) {
            self.then(span.value.of(head))
        } else {
            self
        }
    }

    /// What is said once this value has come too.
    fn then(self, value: &'h [u8]) -> Stated<'h>
        ensures { (values : List (List ℕ)) → States self.entry values
            → States result (values ++ value.now ∷ []) }
    {
        match self {
            Stated::Never => Stated::Once(value),
            Stated::Once(_) | Stated::Often => Stated::Often,
        }
    }
}
