//! The spans of an answer.
ghost use Rattle.std.specs.Prelude.{◌≡◌};

use op_model::Span;
use std::marker::Model;

/// The spans of a document. Contracts see the list of them.
#[derive(Drop)]
pub struct SpanList {
    spans: Vec<Span>,
}

impl Model for SpanList {
    ghost use Rattle.std.specs.Prelude.{List};
    ghost use Rattle.op_model.specs.declared.span.Span.{Span};

    ghost Value = { List Span };

    ghost view = { λ s. s.spans.items };
}

impl From<Vec<Span>> for SpanList {
    ghost from_gives = { λ spans result. result ≡ spans.items };

    fn from(spans: Vec<Span>) -> SpanList {
        SpanList { spans }
    }
}

impl SpanList {
    /// The spans, in order.
    pub fn as_slice(&self) -> &[Span]
        ensures { result.now ≡ self.now }
    {
        &self.spans
    }
}
