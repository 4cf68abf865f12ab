//! Runs of orders over disks in memory, for tests.
use command_syntax::{ImportOrder, StoreOrder};
use disk_trait::{Disk, MemDisk};
use op_ids::ReplicaId;
use page_reading::PageForm;
use span_export::Form;
use std::alloc::{AllocError, Global};
use std::process::Abort;
use std::test::Fail;
use store_orders::{
    Ended, Imported, Shown, import, perform, print, show, show_check, show_past, show_versions,
    status,
};

/// What a run leaves: its disk, its exit status, and what it wrote.
#[derive(Drop)]
pub struct Ran<D: Disk> {
    pub disk: D,
    pub status: u8,
    pub output: Vec<u8>,
    pub faults: Vec<u8>,
}

pub fn run<D: Disk>(alloc: Global, order: &StoreOrder<'_>, disk: D, input: &str) -> Ran<D> {
    let mut output = Vec::new(alloc);
    let mut faults = Vec::new(alloc);
    let Ended { disk, end } = perform(alloc, order, disk, input.as_bytes(), &mut output);
    Ran {
        disk,
        status: status(alloc, end, &mut faults),
        output,
        faults,
    }
}

/// A run that prints what was shown.
fn shown<D: Disk>(alloc: Global, it: Shown<D>) -> Ran<D> {
    let mut output = Vec::new(alloc);
    let mut faults = Vec::new(alloc);
    let Shown { disk, lines } = it;
    let end = match lines {
        Ok(lines) => print(&lines, &mut output),
        Err(fault) => Err(fault),
    };
    Ran {
        disk,
        status: status(alloc, end, &mut faults),
        output,
        faults,
    }
}

/// A run that puts a page in at the end of document 1.
fn imported<D: Disk>(alloc: Global, form: PageForm, disk: D, page: &str) -> Ran<D> {
    let mut output = Vec::new(alloc);
    let mut faults = Vec::new(alloc);
    let order = ImportOrder {
        file: "",
        doc: 1,
        form,
    };
    let Imported { disk, end } = import(alloc, order, disk, page.as_bytes(), &mut output);
    let end = end.map(|_| ());
    Ran {
        disk,
        status: status(alloc, end, &mut faults),
        output,
        faults,
    }
}

pub fn replica() -> Result<ReplicaId, Fail> {
    let bytes = [0, 0, 0, 0, 0, 0, 0x40, 0, 0x80, 0, 0, 0, 0, 0, 0, 1];
    Ok(ReplicaId::read(bytes).ok_or("nil")?)
}

/// What is done over a disk.
#[derive(Clone, Copy)]
pub enum What<'a> {
    /// An order is carried out, which reads these lines.
    Order(StoreOrder<'a>, &'a str),
    /// A document is dumped.
    Dump(u32),
    /// The text of document 1 as it was with so many operations is shown.
    Past(u32),
    /// A page is put in at the end of document 1.
    Import(PageForm, &'a str),
    /// The versions of document 1, of at most so many operations each, are shown.
    History(u32),
    /// It is checked.
    Check,
}

/// What is done, the status that it ends with, what it writes, and what it tells of a fault.
pub type Row<'a> = (What<'a>, u8, &'a str, &'a str);

pub const EDIT: StoreOrder<'static> = StoreOrder::Edit { file: "" };

fn written<D: Disk>(rt: &impl Abort, run: Ran<D>, status: u8, output: &str, faults: &str) -> D {
    assert!(rt;
        run.output.as_slice() == output.as_bytes(),
        "{:?} in place of {output:?}",
        run.output
    );
    assert!(rt;
        run.faults.as_slice() == faults.as_bytes(),
        "{:?} in place of {faults:?}",
        run.faults
    );
    assert_eq!(rt; run.status, status, "after {output:?}");
    run.disk
}

/// Does what a row says over a disk, which is given back.
pub fn turn<D: Disk>(rt: &(impl Abort + AllocGlobal), disk: D, row: &Row<'_>) -> D {
    let (what, status, output, faults) = row;
    let ran = match what {
        What::Order(order, input) => run(rt.alloc(), order, disk, input),
        What::Dump(doc) => shown(rt.alloc(), show(rt.alloc(), disk, *doc)),
        What::Past(rev) => shown(rt.alloc(), show_past(rt.alloc(), disk, 1, *rev, Form::Text)),
        What::History(every) => shown(rt.alloc(), show_versions(rt.alloc(), disk, 1, *every)),
        What::Import(form, page) => imported(rt.alloc(), *form, disk, page),
        What::Check => shown(rt.alloc(), show_check(rt.alloc(), disk)),
    };
    written(rt, ran, *status, output, faults)
}

/// Does what these rows say over a disk, each over what the one before it left.
pub fn turns(rt: &(impl Abort + AllocGlobal), disk: MemDisk, rows: &[Row<'_>]) -> MemDisk {
    let mut disk = disk;
    for row in rows {
        disk = turn(rt, disk, row);
    }
    disk
}

pub fn fresh(alloc: Global) -> Result<MemDisk, AllocError> {
    MemDisk::new(alloc, 1_048_576, 1_024)
}

/// A fresh store, made by an `init`.
pub fn made(rt: &(impl Abort + AllocGlobal)) -> Result<MemDisk, Fail> {
    let order = StoreOrder::Init {
        file: "",
        replica: replica()?,
    };
    let made = run(rt.alloc(), &order, fresh(rt.alloc())?, "");
    Ok(written(rt, made, 0, "{\"ok\":true}\n", ""))
}

/// What is shown of a session over a fresh store, the lines that it reads, and those that it writes.
pub type Session = (&'static str, &'static str, &'static str);

/// Whether a run ended well, and wrote this alone.
fn has_written<D: Disk>(ran: &Ran<D>, output: &str) -> bool {
    ran.status == 0 && ran.output.as_slice() == output.as_bytes() && ran.faults.is_empty()
}

/// Runs each of these sessions over a fresh store.
pub fn sessions(rt: &(impl Abort + AllocGlobal), rows: &[Session]) -> Result<(), Fail> {
    for (name, input, output) in rows {
        let ran = run(rt.alloc(), &EDIT, made(rt)?, input);
        assert!(rt;
            has_written(&ran, output),
            "{name}: {:?} in place of {output:?}",
            ran.output
        );
    }
    Ok(())
}
