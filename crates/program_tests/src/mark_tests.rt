//! Marks through sessions over disks in memory.
use crate::test_runs::What::{Dump, Order};
use crate::test_runs::{EDIT, Session, made, sessions, turns};
use std::test::Fail;

static MARKED: [Session; 8] = [
    (
        "strong grows at its end",
        "{\"op\":\"insert\",\"doc\":1,\"at\":0,\"text\":\"abc\"}\n{\"op\":\"mark\",\"doc\":1,\"from\":0,\"to\":3,\"kind\":\"strong\"}\n{\"op\":\"insert\",\"doc\":1,\"at\":3,\"text\":\"d\"}\n{\"op\":\"spans\",\"doc\":1}\n",
        "{\"ok\":true,\"rev\":3}\n{\"ok\":true,\"rev\":4}\n{\"ok\":true,\"rev\":5}\n{\"ok\":true,\"rev\":5,\"spans\":[{\"strong\":true,\"text\":\"abcd\"}]}\n",
    ),
    (
        "em grows at its end",
        "{\"op\":\"insert\",\"doc\":1,\"at\":0,\"text\":\"abc\"}\n{\"op\":\"mark\",\"doc\":1,\"from\":0,\"to\":2,\"kind\":\"em\"}\n{\"op\":\"insert\",\"doc\":1,\"at\":2,\"text\":\"x\"}\n{\"op\":\"spans\",\"doc\":1}\n",
        "{\"ok\":true,\"rev\":3}\n{\"ok\":true,\"rev\":4}\n{\"ok\":true,\"rev\":5}\n{\"ok\":true,\"rev\":5,\"spans\":[{\"em\":true,\"text\":\"abx\"},{\"text\":\"c\"}]}\n",
    ),
    (
        "the removal of strong grows at its end",
        "{\"op\":\"insert\",\"doc\":1,\"at\":0,\"text\":\"ab\"}\n{\"op\":\"mark\",\"doc\":1,\"from\":0,\"to\":2,\"kind\":\"strong\"}\n{\"op\":\"unmark\",\"doc\":1,\"from\":1,\"to\":2,\"kind\":\"strong\"}\n{\"op\":\"insert\",\"doc\":1,\"at\":2,\"text\":\"c\"}\n{\"op\":\"spans\",\"doc\":1}\n",
        "{\"ok\":true,\"rev\":2}\n{\"ok\":true,\"rev\":3}\n{\"ok\":true,\"rev\":4}\n{\"ok\":true,\"rev\":5}\n{\"ok\":true,\"rev\":5,\"spans\":[{\"strong\":true,\"text\":\"a\"},{\"text\":\"bc\"}]}\n",
    ),
    (
        "a link does not grow",
        "{\"op\":\"insert\",\"doc\":1,\"at\":0,\"text\":\"abc\"}\n{\"op\":\"mark\",\"doc\":1,\"from\":0,\"to\":2,\"kind\":\"link\",\"url\":\"u\"}\n{\"op\":\"insert\",\"doc\":1,\"at\":2,\"text\":\"x\"}\n{\"op\":\"spans\",\"doc\":1}\n",
        "{\"ok\":true,\"rev\":3}\n{\"ok\":true,\"rev\":4}\n{\"ok\":true,\"rev\":5}\n{\"ok\":true,\"rev\":5,\"spans\":[{\"link\":\"u\",\"text\":\"ab\"},{\"text\":\"xc\"}]}\n",
    ),
    (
        "a link does not grow from a tombstone",
        "{\"op\":\"insert\",\"doc\":1,\"at\":0,\"text\":\"ab\"}\n{\"op\":\"mark\",\"doc\":1,\"from\":0,\"to\":2,\"kind\":\"link\",\"url\":\"u\"}\n{\"op\":\"delete\",\"doc\":1,\"at\":1,\"count\":1}\n{\"op\":\"insert\",\"doc\":1,\"at\":1,\"text\":\"x\"}\n{\"op\":\"spans\",\"doc\":1}\n",
        "{\"ok\":true,\"rev\":2}\n{\"ok\":true,\"rev\":3}\n{\"ok\":true,\"rev\":4}\n{\"ok\":true,\"rev\":5}\n{\"ok\":true,\"rev\":5,\"spans\":[{\"link\":\"u\",\"text\":\"a\"},{\"text\":\"x\"}]}\n",
    ),
    (
        "a link over nothing left does not grow",
        "{\"op\":\"insert\",\"doc\":1,\"at\":0,\"text\":\"a\"}\n{\"op\":\"mark\",\"doc\":1,\"from\":0,\"to\":1,\"kind\":\"link\",\"url\":\"u\"}\n{\"op\":\"delete\",\"doc\":1,\"at\":0,\"count\":1}\n{\"op\":\"insert\",\"doc\":1,\"at\":0,\"text\":\"x\"}\n{\"op\":\"spans\",\"doc\":1}\n",
        "{\"ok\":true,\"rev\":1}\n{\"ok\":true,\"rev\":2}\n{\"ok\":true,\"rev\":3}\n{\"ok\":true,\"rev\":4}\n{\"ok\":true,\"rev\":4,\"spans\":[{\"text\":\"x\"}]}\n",
    ),
    (
        "strong that overlaps is one span",
        "{\"op\":\"insert\",\"doc\":1,\"at\":0,\"text\":\"The fox jumped\"}\n{\"op\":\"mark\",\"doc\":1,\"from\":0,\"to\":7,\"kind\":\"strong\"}\n{\"op\":\"mark\",\"doc\":1,\"from\":4,\"to\":14,\"kind\":\"strong\"}\n{\"op\":\"spans\",\"doc\":1}\n",
        "{\"ok\":true,\"rev\":14}\n{\"ok\":true,\"rev\":15}\n{\"ok\":true,\"rev\":16}\n{\"ok\":true,\"rev\":16,\"spans\":[{\"strong\":true,\"text\":\"The fox jumped\"}]}\n",
    ),
    (
        "each comment is decided by itself",
        "{\"op\":\"insert\",\"doc\":1,\"at\":0,\"text\":\"abc\"}\n{\"op\":\"mark\",\"doc\":1,\"from\":0,\"to\":2,\"kind\":\"comment\",\"id\":\"00000000-0000-4000-8000-0000000000c1\"}\n{\"op\":\"mark\",\"doc\":1,\"from\":1,\"to\":3,\"kind\":\"comment\",\"id\":\"00000000-0000-4000-8000-0000000000c2\"}\n{\"op\":\"unmark\",\"doc\":1,\"from\":1,\"to\":2,\"kind\":\"comment\",\"id\":\"00000000-0000-4000-8000-0000000000c1\"}\n{\"op\":\"spans\",\"doc\":1}\n",
        "{\"ok\":true,\"rev\":3}\n{\"ok\":true,\"rev\":4}\n{\"ok\":true,\"rev\":5}\n{\"ok\":true,\"rev\":6}\n{\"ok\":true,\"rev\":6,\"spans\":[{\"comments\":[\"00000000-0000-4000-8000-0000000000c1\"],\"text\":\"a\"},{\"comments\":[\"00000000-0000-4000-8000-0000000000c2\"],\"text\":\"bc\"}]}\n",
    ),
];

#[test]
fn marks_are_made_and_grow_by_their_kind(rt: HostRuntime) -> Result<(), Fail> {
    sessions(&rt, &MARKED)
}

#[test]
fn marks_are_there_after_opening_again(rt: HostRuntime) -> Result<(), Fail> {
    turns(
        &rt,
        made(&rt)?,
        &[
            (
                Order(
                    EDIT,
                    "{\"op\":\"insert\",\"doc\":1,\"at\":0,\"text\":\"abc\"}\n{\"op\":\"mark\",\"doc\":1,\"from\":0,\"to\":2,\"kind\":\"link\",\"url\":\"u\"}\n{\"op\":\"mark\",\"doc\":1,\"from\":1,\"to\":3,\"kind\":\"comment\",\"id\":\"00000000-0000-4000-8000-0000000000c2\"}\n{\"op\":\"delete\",\"doc\":1,\"at\":1,\"count\":1}\n",
                ),
                0,
                "{\"ok\":true,\"rev\":3}\n{\"ok\":true,\"rev\":4}\n{\"ok\":true,\"rev\":5}\n{\"ok\":true,\"rev\":6}\n",
                "",
            ),
            (
                Dump(1),
                0,
                "{\"ok\":true,\"rev\":6,\"text\":\"ac\"}\n{\"ok\":true,\"rev\":6,\"spans\":[{\"link\":\"u\",\"text\":\"a\"},{\"comments\":[\"00000000-0000-4000-8000-0000000000c2\"],\"text\":\"c\"}]}\n",
                "",
            ),
            (
                Order(
                    EDIT,
                    "{\"op\":\"insert\",\"doc\":1,\"at\":1,\"text\":\"x\"}\n{\"op\":\"unmark\",\"doc\":1,\"from\":1,\"to\":3,\"kind\":\"comment\",\"id\":\"00000000-0000-4000-8000-0000000000c2\"}\n{\"op\":\"spans\",\"doc\":1}\n",
                ),
                0,
                "{\"ok\":true,\"rev\":7}\n{\"ok\":true,\"rev\":8}\n{\"ok\":true,\"rev\":8,\"spans\":[{\"link\":\"u\",\"text\":\"a\"},{\"text\":\"xc\"}]}\n",
                "",
            ),
        ],
    );
    Ok(())
}
