//! Weaves, against sequences.
use crate::test_acts::judged;
use crate::test_sequences::Call::{Insert, Remove};
use crate::test_sequences::Row::{Does, Refuses};
use crate::test_sequences::{Call, Row, has_text, id_of, maybe_id, played, refusal};
use char_sequence::{Sequence, Weave};
use std::io::Eprint;
use std::test::Fail;

/// Inserts, and a remove then, that go to a weave and to a sequence.
static CALLS: [Row<'static>; 7] = [
    Does(Insert((1, 1), None, 'x')),
    Does(Insert((2, 1), Some((1, 1)), 'y')),
    Does(Insert((2, 2), Some((1, 1)), 'z')),
    Does(Insert((5, 2), Some((1, 1)), 'v')),
    Does(Insert((3, 1), Some((2, 1)), 'w')),
    Does(Insert((4, 1), None, 'u')),
    Does(Remove((5, 2))),
];

/// The number with which a weave refuses a call, or 0.
fn answer(weave: &mut Weave, call: Call<'_>) -> Result<u8, Fail> {
    match call {
        Insert(id, origin, value) => {
            let (id, origin) = (id_of(id)?, maybe_id(origin)?);
            Ok(refusal(weave.insert(id, origin, value)))
        }
        Remove(id) => Ok(refusal(weave.remove(id_of(id)?))),
        _ => Err(Fail::from("no call of a weave")),
    }
}

/// Whether a row holds: plays it.
fn holds(weave: &mut Weave, row: Row<'_>) -> Result<bool, Fail> {
    match row {
        Does(call) => Ok(answer(weave, call)? == 0),
        Refuses(number, call) => Ok(answer(weave, call)? == number),
        _ => Err(Fail::from("no call")),
    }
}

/// The weave after these rows.
fn woven(rt: &(impl Eprint + AllocGlobal), rows: &[Row<'_>]) -> Result<Box<Weave>, Fail> {
    let mut weave = Box::new(rt.alloc(), Weave::new(rt.alloc())?)?;
    for (number, row) in rows.iter().enumerate() {
        judged(rt, number, holds(&mut weave, *row))?;
    }
    Ok(weave)
}

/// Whether two sequences have the same tombstones behind their first characters.
fn have_one_run(one: &Sequence, other: &Sequence) -> Result<bool, Fail> {
    Ok(one.run_after(1)?.as_slice() == other.run_after(1)?.as_slice())
}

fn have_one_text(one: &Sequence, other: &Sequence) -> Result<bool, Fail> {
    Ok(one.text()? == other.text()?)
}

/// Whether a weave holds what a sequence shows.
fn is_woven(weave: &Weave, due: &Sequence) -> Result<bool, Fail> {
    let alloc = due.allocator();
    let found = Box::new(alloc, weave.sequence(alloc)?)?;
    Ok(have_one_run(&found, due)? && have_one_text(&found, due)?)
}

#[test]
fn a_weave_holds_what_a_sequence_does(rt: HostRuntime) -> Result<(), Fail> {
    let weave = woven(&rt, &CALLS)?;
    let sequence = played(&rt, &CALLS)?;
    assert!(rt; has_text(&sequence, "uxzyw")?);
    assert!(rt; is_woven(&weave, &sequence)?);
    Ok(())
}

static UNKNOWN: [Row<'static>; 3] = [
    Does(Insert((1, 1), None, 'a')),
    Refuses(60, Insert((3, 1), Some((2, 2)), 'b')),
    Refuses(60, Remove((2, 1))),
];

#[test]
fn a_weave_refuses_an_unknown_id(rt: HostRuntime) -> Result<(), Fail> {
    let _ = woven(&rt, &UNKNOWN)?;
    Ok(())
}
