//! What of a page isn't kept.
ghost use Rattle.std.specs.Prelude.{◌≡◌};
ghost use Rattle.markdown_reading.specs.Pages.{nothing};

/// What a page may have that a document doesn't: it becomes plain text.
#[derive(Clone, Copy, Debug, PartialEq, Eq)]
pub enum Kind {
    /// A break of a line within a paragraph: it parts paragraphs.
    Break,
    /// Code, in a line or of some lines.
    Code,
    /// The tag of a comment.
    Comment,
    Heading,
    /// HTML but for comments' tags.
    Html,
    /// An image: its text stays.
    Image,
    /// A link that leads nowhere, or whose address is too long.
    Link,
    /// An item of a list.
    List,
    Quote,
    /// A link by a name that stands elsewhere: it stays as it was written.
    Reference,
    /// A line between parts.
    Rule,
}

/// How often a page has what isn't kept of it.
#[derive(Clone, Copy, Debug, PartialEq, Eq)]
pub struct Dropped {
    pub breaks: u64,
    pub code: u64,
    pub comments: u64,
    pub headings: u64,
    pub html: u64,
    pub images: u64,
    pub links: u64,
    pub items: u64,
    pub quotes: u64,
    pub references: u64,
    pub rules: u64,
}

impl Dropped {
    /// Nothing.
    pub fn none() -> Dropped
        ensures { result ≡ nothing }
    {
        Dropped {
            breaks: 0,
            code: 0,
            comments: 0,
            headings: 0,
            html: 0,
            images: 0,
            links: 0,
            items: 0,
            quotes: 0,
            references: 0,
            rules: 0,
        }
    }

    /// Counts one more.
    pub(crate) fn count(&mut self, kind: Kind) {
        let counter = match kind {
            Kind::Break => &mut self.breaks,
            Kind::Code => &mut self.code,
            Kind::Comment => &mut self.comments,
            Kind::Heading => &mut self.headings,
            Kind::Html => &mut self.html,
            Kind::Image => &mut self.images,
            Kind::Link => &mut self.links,
            Kind::List => &mut self.items,
            Kind::Quote => &mut self.quotes,
            Kind::Reference => &mut self.references,
            Kind::Rule => &mut self.rules,
        };
        *counter = counter.saturating_add(1);
    }

    /// The names of what was dropped, in their order, each with how often.
    pub fn named(&self) -> [(&'static str, u64); 11] {
        [
            ("break", self.breaks),
            ("code", self.code),
            ("comment", self.comments),
            ("heading", self.headings),
            ("html", self.html),
            ("image", self.images),
            ("link", self.links),
            ("list", self.items),
            ("quote", self.quotes),
            ("reference", self.references),
            ("rule", self.rules),
        ]
    }
}
