//! What a commit is planned from: the live root, and the records that it adds.

use crate::root::Root;
use page_file::Pages;

/// The live root, and its pages in memory.
#[derive(Clone, Copy)]
pub(crate) struct Live<'a> {
    pub root: &'a Root,
    pub index: &'a Pages,
}

/// The records of so many new operations.
#[derive(Clone, Copy)]
pub(crate) struct Records<'a> {
    pub bytes: &'a [u8],
    pub count: u64,
}
