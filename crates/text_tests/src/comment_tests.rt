//! Which comments stand.
use crate::test_names::{comment, id};
use comment_marks::Comments;
use op_model::{End, Mark, MarkKey, Marking, Start};
use std::alloc::Global;
use std::test::Fail;

/// A mark operation about a comment, over the whole text: its counter, the comment's last byte, and
/// whether it adds the comment.
type Row = (u64, u8, bool);

fn marking(row: Row) -> Result<Marking, Fail> {
    let comment = comment(row.1);
    Ok(Marking {
        id: id(row.0)?,
        key: MarkKey::Comment(comment),
        mark: row.2.then_some(Mark::Comment(comment)),
        start: Start::OfText,
        end: End::OfText,
    })
}

/// The comments that stand after these mark operations.
fn standing(alloc: Global, rows: &[Row]) -> Result<Comments, Fail> {
    let mut markings = Vec::new(alloc);
    for row in rows {
        markings.push(marking(*row)?)?;
    }
    let set: Vec<&Marking> = markings.iter().collect(alloc)?;
    Ok(Comments::of(alloc, &set)?)
}

#[test]
fn of_no_mark_operations_none_stands(rt: HostRuntime) -> Result<(), Fail> {
    assert!(rt; standing(rt.alloc(), &[])?.as_slice().is_empty());
    Ok(())
}

#[test]
fn the_greatest_id_decides_for_each_comment(rt: HostRuntime) -> Result<(), Fail> {
    // 9 and 2 overlap, 5 is taken away by a later operation, and the removal of 2 comes last but
    // has a smaller id than what added it.
    let found = standing(
        rt.alloc(),
        &[
            (3, 9, true),
            (6, 5, false),
            (4, 2, true),
            (5, 5, true),
            (1, 2, false),
        ],
    )?;
    assert!(rt; found.as_slice() == [comment(2), comment(9)].as_slice());
    assert!(rt; found.contains(comment(9)));
    assert!(rt; !found.contains(comment(5)));
    assert!(rt; found.into_ids().as_slice().len() == 2);
    Ok(())
}
