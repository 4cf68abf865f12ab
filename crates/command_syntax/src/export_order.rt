//! The words of `export`.
use span_export::Form;

/// A document of a store, by its number from 1 on, in a form that other programs read: as it is, or
/// as it was when it had so many operations.
#[derive(Clone, Copy, Debug, PartialEq, Eq)]
pub struct ExportOrder<'a> {
    pub file: &'a str,
    pub doc: u32,
    pub at_rev: Option<u32>,
    pub form: Form,
}
