//! The lines of a session: a line as it is read into a command, and an answer as it is written.
//!
//! It knows nothing of documents: text comes in, a command goes out, and back.
#![tactic(auto)]

mod anchor_text;
mod answer;
mod answer_line;
mod change_list;
mod changes;
mod command;
mod document_list;
mod documents;
mod edits;
mod exported;
mod fields;
mod kind;
mod lasting_list;
mod line;
mod numbered;
mod numbers;
mod one_change;
mod peer_list;
mod peers;
mod place_list;
mod places;
mod quoted;
mod reading;
mod refusal;
mod request;
mod room;
mod several;
mod short_line;
mod span_list;
mod spans;
mod spot;
mod verb;
mod version_list;
mod versions;
mod watch;
mod watching;

pub use answer::{Answer, State};
pub use answer_line::say;
pub use change_list::ChangeList;
pub use command::Command;
pub use document_list::DocumentList;
pub use exported::Exported;
pub use lasting_list::LastingList;
pub use line::read_command;
pub use numbers::Numbers;
pub use peer_list::PeerList;
pub use place_list::PlaceList;
pub use refusal::Refusal;
pub use room::put_file_room;
pub use short_line::{SHORT, put_watched};
pub use span_list::SpanList;
pub use version_list::VersionList;
pub use watch::watch_line;
pub use watching::Watching;
