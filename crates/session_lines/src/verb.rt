//! The names of the requests.
ghost use Rattle.std.specs.Prelude.{◌≡◌};
ghost use Rattle.session_lines.specs.Fields.{verb_named};

/// What kind of request a line is.
#[derive(Clone, Copy, Drop)]
pub enum Verb {
    Insert,
    Delete,
    Mark,
    Unmark,
    Edits,
    Text,
    Spans,
    Versions,
    Changes,
    Anchors,
    Places,
    Find,
    Export,
    Status,
    Peers,
    Documents,
    Room,
    Stop,
}

impl Verb {
    /// The kind of request with this name, if there is one.
    pub(crate) fn named(name: &str) -> Option<Verb>
        ensures { result ≡ verb_named name.now }
    {
        match name {
            "insert" => Some(Verb::Insert),
            "delete" => Some(Verb::Delete),
            "mark" => Some(Verb::Mark),
            "unmark" => Some(Verb::Unmark),
            "edits" => Some(Verb::Edits),
            "text" => Some(Verb::Text),
            "spans" => Some(Verb::Spans),
            "versions" => Some(Verb::Versions),
            "changes" => Some(Verb::Changes),
            "anchors" => Some(Verb::Anchors),
            "places" => Some(Verb::Places),
            "find" => Some(Verb::Find),
            "export" => Some(Verb::Export),
            "status" => Some(Verb::Status),
            "peers" => Some(Verb::Peers),
            "documents" => Some(Verb::Documents),
            "room" => Some(Verb::Room),
            "stop" => Some(Verb::Stop),
            _ => None,
        }
    }
}
