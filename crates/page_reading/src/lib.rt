//! Texts of other programs, read as spans: as they stand, or as Markdown; and the edits that put
//! them in at the end of a document.
#![tactic(auto)]

mod action_draft;
mod batch;
mod document_end;
mod marking_run;
mod page_actions;
mod page_form;
mod plain;
mod reading;

pub use document_end::DocumentEnd;
pub use page_actions::actions;
pub use page_form::PageForm;
pub use plain::read_text;
pub use reading::read_page;
