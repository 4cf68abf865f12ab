//! How many comment ids are listed.
ghost use Rattle.std.specs.Prelude.{◌≡◌, ◌+◌, ◌<◌, OnErr, OnOk};

use crate::error::SpansError;

/// Counts `count` against those that are left. An error is that they are more.
pub(crate) fn count_down(count: usize, left: &mut usize) -> Result<(), SpansError>
    ensures counted { OnOk result (left.new + count ≡ left.old) }
    ensures more { OnErr result (left.old < count) }
{
    if *left < count {
        return Err(SpansError::Listing);
    }
    *left -= count;
    Ok(())
}
