//! What is counted of documents.
ghost use Rattle.std.specs.Prelude.{◌≡◌};

use list_counts::DocumentCounts;
use std::marker::Model;

/// What is counted of each document. Contracts see the list of it.
#[derive(Drop)]
pub struct DocumentList {
    documents: Vec<DocumentCounts>,
}

impl Model for DocumentList {
    ghost use Rattle.std.specs.Prelude.{List};
    ghost use Rattle.list_counts.specs.Documents.{Counted};

    ghost Value = { List Counted };

    ghost view = { λ d. d.documents.items };
}

impl From<Vec<DocumentCounts>> for DocumentList {
    ghost from_gives = { λ documents result. result ≡ documents.items };

    fn from(documents: Vec<DocumentCounts>) -> DocumentList {
        DocumentList { documents }
    }
}

impl DocumentList {
    /// What is counted, in rising order of the documents' numbers.
    pub fn as_slice(&self) -> &[DocumentCounts]
        ensures { result.now ≡ self.now }
    {
        &self.documents
    }
}
