//! Orders over disks in memory whose calls fail.
use crate::test_runs::What::Order;
use crate::test_runs::{EDIT, made, run, turn};
use disk_trait::{FaultDisk, MemDisk};
use std::alloc::Global;
use std::io;
use std::io::Write;
use std::process::Abort;
use std::test::Fail;
use store_orders::{perform, status};

#[test]
fn a_failed_device_ends_edits_and_not_readings(rt: HostRuntime) -> Result<(), Fail> {
    // The calls of opening an empty store are a sync, a size and a read; the sixth call is the commit's first sync.
    let disk = FaultDisk::new(made(&rt)?, 6);
    let input =
        "{\"op\":\"insert\",\"doc\":1,\"at\":0,\"text\":\"a\"}\n{\"op\":\"insert\",\"doc\":1,\"at\":0,\"text\":\"b\"}\n{\"op\":\"text\",\"doc\":1}\n{\"op\":\"status\"}\n{\"op\":\"stop\"}\n{\"op\":\"insert\",\"doc\":1,\"at\":0,\"text\":\"c\"}\n";
    let text =
        "{\"code\":9,\"error\":\"failed\",\"ok\":false}\n{\"code\":9,\"error\":\"failed\",\"ok\":false}\n{\"ok\":true,\"rev\":1,\"text\":\"a\"}\n{\"applied\":1,\"ok\":true,\"settled\":0,\"state\":\"failed\"}\n{\"code\":9,\"error\":\"failed\",\"ok\":false}\n{\"code\":12,\"error\":\"stopping\",\"ok\":false}\n";
    let disk = turn(
        &rt,
        disk,
        &(Order(EDIT, input), 1, text, "peritext: 9 failed\n"),
    );
    let reading = Order(EDIT, "{\"op\":\"text\",\"doc\":1}\n");
    let empty = "{\"ok\":true,\"rev\":0,\"text\":\"\"}\n";
    turn(&rt, disk.into_inner(), &(reading, 0, empty, ""));
    Ok(())
}

/// An output that takes nothing.
#[derive(Drop)]
struct NoOutput;

impl Write for NoOutput {
    fn write(&mut self, _buf: &[u8]) -> io::Result<usize> {
        Err(io::Error::other("the output broke"))
    }

    fn flush(&mut self) -> io::Result<()> {
        Ok(())
    }
}

/// What is told of an edit over an output that takes nothing, where the n-th device call fails.
fn told(rt: &(impl Abort + AllocGlobal), n: u64) -> Result<(u8, Vec<u8>), Fail> {
    let alloc = rt.alloc();
    let input = "{\"op\":\"insert\",\"doc\":1,\"at\":0,\"text\":\"a\"}\n".as_bytes();
    let disk = FaultDisk::new(made(rt)?, n);
    let ended = perform(alloc, &EDIT, disk, input, &mut NoOutput);
    let mut faults = Vec::new(alloc);
    let status = status(alloc, ended.end, &mut faults);
    Ok((status, faults))
}

#[test]
fn a_failed_store_is_told_before_a_failed_output(rt: HostRuntime) -> Result<(), Fail> {
    for (call, due) in [(6, "peritext: 9 failed\n"), (0, "peritext: 71 stream\n")] {
        let (status, faults) = told(&rt, call)?;
        assert_eq!(rt; status, 1);
        assert!(rt; faults.as_slice() == due.as_bytes(), "{faults:?}");
    }
    Ok(())
}

/// What a session over a fresh store writes that inserts "a", where the n-th device call fails: the calls of opening are a
/// sync, a size and a read, those of the commit two pages, a sync, the body, a sync, the gate, a sync.
fn due_where_fails(n: u64) -> (&'static str, &'static str) {
    match n {
        1 => ("", "peritext: 52 sync failed\n"),
        2 => ("", "peritext: 50 read failed\n"),
        3 => ("", "peritext: 50 read failed\n"),
        _ => (
            "{\"code\":9,\"error\":\"failed\",\"ok\":false}\n",
            "peritext: 9 failed\n",
        ),
    }
}

/// Opens what a failed call left, and reads the text: the edit is there whole or not at all.
fn has_nothing_or_a(alloc: Global, disk: MemDisk) -> bool {
    let read = run(alloc, &EDIT, disk, "{\"op\":\"text\",\"doc\":1}\n");
    let output = read.output.as_slice();
    output == "{\"ok\":true,\"rev\":0,\"text\":\"\"}\n".as_bytes()
        || output == "{\"ok\":true,\"rev\":1,\"text\":\"a\"}\n".as_bytes()
}

/// Whether a session ends as it has to where the n-th device call fails.
fn ends_where_fails(rt: &(impl Abort + AllocGlobal), n: u64) -> Result<bool, Fail> {
    let alloc = rt.alloc();
    let input = "{\"op\":\"insert\",\"doc\":1,\"at\":0,\"text\":\"a\"}\n";
    let ran = run(alloc, &EDIT, FaultDisk::new(made(rt)?, n), input);
    let (output, faults) = due_where_fails(n);
    let is_due = ran.status == 1
        && ran.output.as_slice() == output.as_bytes()
        && ran.faults.as_slice() == faults.as_bytes();
    let disk = ran.disk;
    Ok(is_due && has_nothing_or_a(alloc, disk.into_inner()))
}

#[test]
fn a_device_call_that_fails_is_told_wherever_it_comes(rt: HostRuntime) -> Result<(), Fail> {
    for n in 1..11 {
        assert!(rt; ends_where_fails(&rt, n)?, "call {n}");
    }
    let unfailed = FaultDisk::new(made(&rt)?, 11);
    let insert = Order(
        EDIT,
        "{\"op\":\"insert\",\"doc\":1,\"at\":0,\"text\":\"a\"}\n",
    );
    turn(&rt, unfailed, &(insert, 0, "{\"ok\":true,\"rev\":1}\n", ""));
    Ok(())
}
