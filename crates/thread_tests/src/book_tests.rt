//! The books of passes.
use pass_books::open;
use std::test::Fail;

#[test]
fn a_share_has_what_was_entered(rt: HostRuntime) -> Result<(), Fail> {
    let (mut book, mut share) = open::<u64>(rt.alloc())?;
    assert!(rt; share.count() == 0 && share.newest() == 0);
    book.add(&mut share, 7);
    book.enter(&mut share, &3);
    book.add(&mut share, 5);
    book.audit(&mut share);
    assert!(rt; share.count() == 2 && share.newest() == 5);
    Ok(())
}
