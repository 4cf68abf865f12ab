//! What an order over one disk does, and how a run of the program ends.
//!
//! It takes any disk, reader and writers, so whole runs of the program are tested in memory.
#![tactic(auto)]

mod checking;
mod ended;
mod explaining;
mod fault;
mod history;
mod imported_text;
mod importing;
mod listing;
mod performing;
mod printing;
mod sentence;
mod showing;

pub use checking::{check, show_check};
pub use ended::{Ended, status};
pub use explaining::{Place, explain};
pub use fault::Fault;
pub use history::{print_versions, show_versions};
pub use importing::{Imported, import};
pub use performing::perform;
pub use printing::print;
pub use sentence::Sentence;
pub use showing::{Shown, dump, export_from, list, show, show_all, show_in, show_past};
