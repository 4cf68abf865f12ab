//! A page that was read.
use crate::dropped::Dropped;
use op_model::Span;

/// What was read of a page, and what isn't kept of it.
#[derive(Debug, Drop)]
pub struct Page {
    /// Each has some characters, and other marks than its neighbours.
    pub spans: Vec<Span>,
    pub dropped: Dropped,
}
