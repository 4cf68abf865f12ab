//! The words of `ask`.
use crate::few_texts::FewTexts;

/// What is asked of a daemon.
#[derive(Clone, Copy, Debug, PartialEq, Eq)]
pub struct AskOrder<'a> {
    /// Where its sessions come in.
    pub port: u16,
    /// The requests; if there are none, they come by standard input.
    pub lines: FewTexts<'a>,
}
