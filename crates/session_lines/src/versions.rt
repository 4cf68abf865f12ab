//! The versions of a document, as JSON.
ghost use Rattle.std.specs.Prelude.{false};
ghost use Rattle.session_lines.specs.Counting.{said_version};
ghost use Rattle.session_lines.specs.Putting.{Puts};
ghost use Rattle.session_lines.specs.Words.{said_list};

use crate::numbered::put_numbered;
use crate::peers::put_replica;
use crate::quoted::{comma, put};
use list_counts::Version;
use std::alloc::AllocError;

/// Puts a version.
fn put_version(version: &Version, out: &mut Vec<u8>) -> Result<(), AllocError>
    ensures { Puts result out.old out.new (said_version version.now) }
{
    put_numbered(b"{\"ops\":", version.ops, b",\"replica\":", out)?;
    put_replica(version.replica, out)?;
    put_numbered(b",\"rev\":", version.rev, b"}", out)
}

/// Puts versions, and the closing bracket.
pub(crate) fn put_versions(versions: &[Version], out: &mut Vec<u8>) -> Result<(), AllocError>
    ensures { Puts result out.old out.new (said_list said_version false versions.now) }
{
    let mut later = false;
    for version in versions {
        put(comma(later), out)?;
        put_version(version, out)?;
        later = true;
    }
    put(b"]", out)
}
