//! The words of `import`.
use page_reading::PageForm;

/// What a page, in this form, is put into: a document of a store, by its number from 1 on.
#[derive(Clone, Copy, Debug, PartialEq, Eq)]
pub struct ImportOrder<'a> {
    pub file: &'a str,
    pub doc: u32,
    pub form: PageForm,
}
