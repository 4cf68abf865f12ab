//! Numbers in bytes, and page numbers.
use page_file::{are_pages, is_zero, put_numbers, take_numbers};
use std::alloc::Global;
use std::test::Fail;

/// Whether these numbers are written as these bytes.
fn are_written(alloc: Global, numbers: &[u32], bytes: &[u8]) -> Result<bool, Fail> {
    let mut out = Vec::new(alloc);
    put_numbers(numbers, &mut out)?;
    Ok(out.as_slice() == bytes)
}

#[test]
fn numbers_are_written_and_read(rt: HostRuntime) -> Result<(), Fail> {
    let (numbers, bytes) = ([3, 0x0102_0304], [0, 0, 0, 3, 1, 2, 3, 4]);
    assert!(rt; are_written(rt.alloc(), &numbers, &bytes)?);
    assert_eq!(rt;
        take_numbers(rt.alloc(), &bytes, 2)?.as_slice(),
        numbers.as_slice()
    );
    Ok(())
}

#[test]
fn pages_are_behind_the_root_slots_and_apart(rt: HostRuntime) {
    assert!(rt; are_pages(&[2, 4, 3]));
    assert!(rt; !are_pages(&[2, 1]));
    assert!(rt; !are_pages(&[3, 2, 3]));
    assert!(rt; is_zero(&[0, 0]));
    assert!(rt; !is_zero(&[0, 1]));
}
