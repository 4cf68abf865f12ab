//! When a read is made again.

use std::io::ErrorKind;

/// Whether nothing came in time, or the wait was cut short.
pub fn has_to_wait(kind: ErrorKind) -> bool {
    matches!(
        kind,
        ErrorKind::WouldBlock | ErrorKind::TimedOut | ErrorKind::Interrupted
    )
}
