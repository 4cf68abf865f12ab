//! The bytes of the files that orders leave.
use crate::test_runs::What::Order;
use crate::test_runs::{EDIT, made, turn};
use disk_trait::Disk;
use std::test::Fail;

/// The open slot of a fresh store: version 1, the replica, no operations.
const MADE: &[u8] =
    b"\x01\0\0\0\0\0\0\0PTXTPG03\0\0\0\0\0\0\0\x01\0\0\0\0\0\0\x40\0\x80\0\0\0\0\0\0\x01";

/// The open slot behind the first commit: version 2, 39 bytes of stream, one operation, the table page 3.
const ONE: &[u8] =
    b"\x01\0\0\0\0\0\0\0PTXTPG03\0\0\0\0\0\0\0\x02\0\0\0\0\0\0\x40\0\x80\0\0\0\0\0\0\x01\0\0\0\0\0\0\0\x27\0\0\0\0\0\0\0\x01\0\0\0\x01\0\0\0\0\0\0\0\x03";

/// The record of the first insert: "a" at the beginning of document 1.
const FIRST: &[u8] =
    b"\0\0\0\x23\x01\0\0\0\x01\0\0\0\0\0\0\0\x01\0\0\0\0\0\0\x40\0\x80\0\0\0\0\0\0\x01\0\0\0\0\0\x61";

/// Whether a page begins with these bytes, and the rest is zero.
fn is_filled(page: &[u8], start: &[u8]) -> bool {
    for (i, byte) in page.iter().enumerate() {
        if *byte != start.get(i).copied().unwrap_or(0) {
            return false;
        }
    }
    true
}

/// Where the page of this number begins.
fn place(number: usize) -> u64 {
    (number as u64).saturating_mul(4096)
}

/// Whether the file has just these pages, each filled up with zeros.
fn has_pages(disk: &mut impl Disk, pages: &[&[u8]]) -> bool {
    for (number, start) in pages.iter().enumerate() {
        let mut page = [0; 4096];
        if disk.read_at(place(number), &mut page).is_err() || !is_filled(&page, start) {
            return false;
        }
    }
    disk.size() == Ok(place(pages.len()))
}

#[test]
fn the_file_has_these_bytes(rt: HostRuntime) -> Result<(), Fail> {
    let mut disk = made(&rt)?;
    assert!(rt; has_pages(&mut disk, &[MADE, b""]));
    let input = "{\"op\":\"insert\",\"doc\":1,\"at\":0,\"text\":\"a\"}\n";
    let row = (Order(EDIT, input), 0, "{\"ok\":true,\"rev\":1}\n", "");
    let mut disk = turn(&rt, disk, &row);
    assert!(rt; has_pages(&mut disk, &[MADE, ONE, FIRST, b"\0\0\0\x02"]));
    Ok(())
}
