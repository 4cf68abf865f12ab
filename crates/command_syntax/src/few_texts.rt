//! A few texts of a command line.
ghost use Rattle.std.specs.Prelude.{◌≡◌, map, option_map};
ghost use Rattle.command_syntax.specs.Few.{as_few, texts_of};

/// How many texts there may be.
const MOST: usize = 8;

/// Texts of a command line, at most 8, each as it was written.
#[derive(Clone, Copy, Debug, PartialEq, Eq)]
pub struct FewTexts<'a> {
    named: [&'a str; MOST],
    count: usize,
}

impl<'a> FewTexts<'a> {
    /// These ones; not where there are over 8.
    pub fn new(texts: &[&'a str]) -> Option<FewTexts<'a>>
        ensures { option_map texts_of result ≡ as_few (map (λ text. text.now) texts.now) }
    {
        let count = texts.len();
        if MOST < count {
            return None;
        }
        let mut named = [""; MOST];
        named[..count].copy_from_slice(texts);
        Some(FewTexts { named, count })
    }

    /// All of them, in their order.
    pub fn as_slice(&self) -> &[&'a str]
        ensures { map (λ text. text.now) result.now ≡ texts_of self.now }
    {
        &self.named[..self.count.min(MOST)]
    }
}
