//! The passes of a shared hub, and their books.

use hub_parts::Locked;

/// The right to make steps under one number, held by one thread at a time. Contracts see the
/// number, the entries, and the moments at which the calls with this pass had the lock: the locked
/// part as it was then. They take no bytes.
pub type Pass<J> = pass_books::Pass<J, Locked>;

/// The books of all passes.
pub(crate) type Books<J> = pass_books::Books<J, Locked>;
