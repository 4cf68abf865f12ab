//! The versions of a document.
ghost use Rattle.std.specs.Prelude.{◌≡◌};

use list_counts::Version;
use std::marker::Model;

/// The versions of a document. Contracts see the list of them.
#[derive(Drop)]
pub struct VersionList {
    versions: Vec<Version>,
}

impl Model for VersionList {
    ghost use Rattle.std.specs.Prelude.{List};
    ghost use Rattle.list_counts.specs.declared.version.Version.{Version};

    ghost Value = { List Version };

    ghost view = { λ v. v.versions.items };
}

impl From<Vec<Version>> for VersionList {
    ghost from_gives = { λ versions result. result ≡ versions.items };

    fn from(versions: Vec<Version>) -> VersionList {
        VersionList { versions }
    }
}

impl VersionList {
    /// The versions, in the order in which they came.
    pub fn as_slice(&self) -> &[Version]
        ensures { result.now ≡ self.now }
    {
        &self.versions
    }
}
