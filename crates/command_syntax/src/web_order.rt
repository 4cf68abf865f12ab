//! The words of `serve` about web pages.
use crate::few_texts::FewTexts;

/// Where WebSockets come in, and the origins of the web pages that may open them.
#[derive(Clone, Copy, Debug, PartialEq, Eq)]
pub struct WebOrder<'a> {
    pub port: u16,
    pub origins: FewTexts<'a>,
}
