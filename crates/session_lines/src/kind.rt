//! The names of the kinds of marks.
ghost use Rattle.std.specs.Prelude.{◌≡◌};
ghost use Rattle.session_lines.specs.Fields.{kind_named};

/// What kind of mark a request is about.
#[derive(Clone, Copy, Drop)]
pub enum Kind {
    Strong,
    Em,
    Link,
    Comment,
}

impl Kind {
    /// The kind with this name, if there is one.
    pub(crate) fn named(name: &str) -> Option<Kind>
        ensures { result ≡ kind_named name.now }
    {
        match name {
            "strong" => Some(Kind::Strong),
            "em" => Some(Kind::Em),
            "link" => Some(Kind::Link),
            "comment" => Some(Kind::Comment),
            _ => None,
        }
    }
}
