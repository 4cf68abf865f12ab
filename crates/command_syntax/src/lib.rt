//! The words of a command line: what they may ask for, and the values that aren't taken as written.
//!
//! It is apart from `clap`, so that what an order may be is said, and compared in tests, without
//! it.
#![tactic(auto)]

mod ask_order;
mod bad_port;
mod check_order;
mod dump_order;
mod export_order;
mod few_texts;
mod history_order;
mod import_order;
mod list_order;
mod order;
mod serve_order;
mod store_order;
mod values;
mod web_order;

pub use ask_order::AskOrder;
pub use bad_port::BadPort;
pub use check_order::CheckOrder;
pub use dump_order::DumpOrder;
pub use export_order::ExportOrder;
pub use few_texts::FewTexts;
pub use history_order::HistoryOrder;
pub use import_order::ImportOrder;
pub use list_order::ListOrder;
pub use order::Order;
pub use serve_order::ServeOrder;
pub use store_order::StoreOrder;
pub use values::{doc, every, form, optional_number, optional_port, port, replica};
pub use web_order::WebOrder;
