//! What a command line asks for.
use crate::ask_order::AskOrder;
use crate::check_order::CheckOrder;
use crate::dump_order::DumpOrder;
use crate::export_order::ExportOrder;
use crate::history_order::HistoryOrder;
use crate::import_order::ImportOrder;
use crate::list_order::ListOrder;
use crate::serve_order::ServeOrder;
use crate::store_order::StoreOrder;

/// What a command line asks for. Files are named as they were written.
#[derive(Clone, Copy, Debug, PartialEq, Eq)]
pub enum Order<'a> {
    /// What is done over one disk, a reader and writers.
    Store(StoreOrder<'a>),
    /// What is shown of a file, which is let go of before that.
    Dump(DumpOrder<'a>),
    /// What is told of all documents of a file, in the same way.
    List(ListOrder<'a>),
    /// What the opening of a file finds, in the same way.
    Check(CheckOrder<'a>),
    /// A document of a file for other programs, in the same way.
    Export(ExportOrder<'a>),
    /// The versions of a document of a file, in the same way.
    History(HistoryOrder<'a>),
    /// A page that is put into a document of a file.
    Import(ImportOrder<'a>),
    /// What is done over a file and sockets.
    Serve(ServeOrder<'a>),
    /// What is asked of a daemon, and the answers.
    Ask(AskOrder<'a>),
}
