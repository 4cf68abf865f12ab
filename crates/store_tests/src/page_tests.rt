//! Pages and tables that are loaded.
use crate::test_files::bytes_of;
use crate::test_rows::{World, named, nothing, play, two_of};
use disk_trait::{Disk, FaultDisk, MemDisk};
use page_file::{PageError, Pages};
use std::alloc::Global;
use std::test::Fail;

/// A disk, and what is known of its file's pages.
#[derive(Drop)]
struct File {
    disk: FaultDisk<MemDisk>,
    pages: Pages,
}

/// An empty one, whose n-th call of the device fails; none where that is 0.
fn empty_file(alloc: Global, n: u64) -> Result<Box<File>, Fail> {
    let pages = Pages::new(alloc)?;
    let disk = FaultDisk::new(MemDisk::new(alloc, 65536, 64)?, n);
    Ok(Box::new(alloc, File { disk, pages })?)
}

/// Writes so many pages, each of one byte over and over: its number.
fn fill<D: Disk>(alloc: Global, disk: &mut D, count: u32) -> Result<String, Fail> {
    for number in 0..(count % 256) as u8 {
        disk.write_at(4096 * u64::from(number), &[number; 4096])?;
    }
    nothing(alloc)
}

/// Writes page 2, a table page.
fn put_table<D: Disk>(alloc: Global, disk: &mut D, words: &str) -> Result<String, Fail> {
    let table = bytes_of(alloc, words)?;
    disk.write_at(8192, &table)?;
    nothing(alloc)
}

/// The live pages of a file whose one table page is page 2.
fn loaded<D: Disk>(alloc: Global, disk: &mut D, data_pages: u64) -> Result<Pages, PageError> {
    match disk.size() {
        Ok(size) => {
            if size < 12288 {
                return Err(PageError::NoPage);
            }
            Pages::load(alloc, disk, &[2], data_pages)
        }
        Err(_) => Err(PageError::ReadFailed),
    }
}

/// Has the live pages loaded.
fn load(alloc: Global, file: &mut File, data_pages: u32) -> Result<(), PageError> {
    file.pages = loaded(alloc, &mut file.disk, u64::from(data_pages))?;
    Ok(())
}

/// Writes the free page of this number, and takes it. It is this byte over and over.
fn put<D: Disk>(pages: &mut Pages, disk: &mut D, page: u32, byte: u32) -> Result<(), PageError> {
    pages.reserve(1)?;
    pages.put_free(disk, page, &[(byte % 256) as u8; 4096])
}

/// Nothing, or the refusal.
fn said(alloc: Global, answer: Result<(), PageError>) -> Result<String, Fail> {
    match answer {
        Ok(()) => nothing(alloc),
        Err(error) => Ok(format!(in alloc; "{error}")?),
    }
}

/// Whether a page is this byte over and over, or its refusal.
fn read(alloc: Global, file: &mut File, page: u32, byte: u32) -> Result<String, Fail> {
    match file.pages.page(&mut file.disk, page) {
        Ok(bytes) => {
            let is_same = bytes.as_slice() == [(byte % 256) as u8; 4096].as_slice();
            Ok(format!(in alloc; "{is_same}")?)
        }
        Err(error) => Ok(format!(in alloc; "{error}")?),
    }
}

/// The lowest free page, and so many of them, where few are used.
fn lowest(alloc: Global, pages: &Pages, count: usize) -> Result<String, Fail> {
    let (tables, data_pages) = pages.live();
    let taken = pages.taken();
    if count < 99 && tables.len() < 99 && data_pages.len() < 99 && taken.len() < 99 {
        let one = pages.lowest_free();
        let all = pages.lowest_free_pages(count)?;
        Ok(format!(in alloc; "{one} {all:?}")?)
    } else {
        Err("too many")?
    }
}

/// The table pages and the data pages that are live, and those that are taken.
fn lists(alloc: Global, pages: &Pages) -> Result<String, Fail> {
    let (tables, data_pages) = pages.live();
    let taken = pages.taken();
    Ok(format!(in alloc; "{tables:?} {data_pages:?} {taken:?}")?)
}

/// The taken pages become the live ones: the first is the data page, the others are table pages.
fn adopt_one(alloc: Global, pages: &mut Pages) -> Result<String, Fail> {
    if pages.taken().len() > 0 {
        pages.adopt(0, 0, 1);
    }
    nothing(alloc)
}

impl World for File {
    fn answer(&mut self, alloc: Global, command: &str, words: &str) -> Result<String, Fail> {
        match command {
            "table" => put_table(alloc, &mut self.disk, words),
            "lists" => lists(alloc, &self.pages),
            "adopt" => adopt_one(alloc, &mut self.pages),
            _ => ask(alloc, self, command, two_of(words)?),
        }
    }
}

/// What is asked with numbers, at most two.
fn ask(alloc: Global, file: &mut File, command: &str, numbers: (u32, u32)) -> Result<String, Fail> {
    let (first, second) = numbers;
    match command {
        "fill" => fill(alloc, &mut file.disk, first),
        "load" => said(alloc, load(alloc, file, first)),
        "put" => said(alloc, put(&mut file.pages, &mut file.disk, first, second)),
        "read" => read(alloc, file, first, second),
        "lowest" => lowest(alloc, &file.pages, first as usize),
        _ => Err("no such command".into()),
    }
}

/// Plays rows over an empty file, whose n-th call of the device fails.
fn plays(rt: &HostRuntime, n: u64, rows: &str) -> Result<(), Fail> {
    let mut file = empty_file(rt.alloc(), n)?;
    play(rt.alloc(), &mut *file, rows)
}

static CASES: [(&str, u64, &str); 7] = [
    (
        "a page is read",
        0,
        "fill 4
        read 3 3 : true
        read 1 1 : page number
        read 4 4 : no page",
    ),
    (
        "only free pages are written",
        0,
        "fill 5
        table 00000003 |
        load 1
        put 3 7 : page number
        put 6 7 : no page
        put 4 7
        read 4 7 : true
        lists : [2] [3] [4]",
    ),
    (
        "a page whose write fails is taken",
        4,
        "fill 3
        put 2 7 : write failed
        lowest 0 : 3 []",
    ),
    (
        "the lowest free pages are given",
        0,
        "fill 4
        lowest 0 : 2 []
        put 3 7
        lowest 3 : 2 [2, 4, 5]",
    ),
    (
        "a new root frees what it leaves",
        0,
        "fill 5
        table 00000003 |
        load 1
        put 4 7
        put 5 7
        adopt
        lists : [5] [4] []
        lowest 0 : 2 []",
    ),
    (
        "live pages are loaded",
        0,
        "fill 8
        table 00000007 00000003 |
        load 2
        lists : [2] [7, 3] []
        lowest 4 : 4 [4, 5, 6, 8]",
    ),
    (
        "bad tables are refused",
        0,
        "fill 8
        table 00000003 00000003 |
        load 2 : bad table
        table 00000003 00000004 |
        load 1 : bad table
        table 00000003 |
        load 1025 : bad table",
    ),
];

#[test]
fn pages_are_loaded_and_put(rt: HostRuntime) -> Result<(), Fail> {
    for (name, number, rows) in &CASES {
        named(&rt, name, plays(&rt, *number, rows))?;
    }
    Ok(())
}
