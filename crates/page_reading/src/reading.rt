//! A page in the form that is named.
use crate::page_form::PageForm;
use crate::plain::read_text;
use markdown_reading::{Page, read_markdown};
use std::alloc::{AllocError, Global};

/// Reads a page in this form. An error is out of memory (1). The time is nearly that of its length.
pub fn read_page(alloc: Global, form: PageForm, text: &[char]) -> Result<Page, AllocError> {
    match form {
        PageForm::Text => read_text(alloc, text),
        PageForm::Markdown => read_markdown(alloc, text),
    }
}
