//! The forms in which a page may be read.
ghost use Rattle.std.specs.Prelude.{◌≡◌};
ghost use Rattle.page_reading.specs.Forms.{page_form_named};

/// A form in which a page is read.
#[derive(Clone, Copy, Debug, PartialEq, Eq)]
pub enum PageForm {
    /// The characters as they stand.
    Text,
    /// CommonMark.
    Markdown,
}

impl PageForm {
    /// The form of this name.
    pub fn named(name: &str) -> Option<PageForm>
        ensures { result ≡ page_form_named name.now }
    {
        match name {
            "text" => Some(PageForm::Text),
            "markdown" => Some(PageForm::Markdown),
            _ => None,
        }
    }
}
