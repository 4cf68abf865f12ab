//! Orders over disks in memory.
use crate::test_runs::What::{Dump, Import, Order, Past};
use crate::test_runs::{EDIT, Session, fresh, made, replica, sessions, turn, turns};
use command_syntax::StoreOrder;
use disk_trait::Disk;
use page_reading::PageForm;
use std::test::Fail;
use store_orders::{Fault, Place, Sentence, explain};

#[test]
fn without_a_file_a_new_store_is_edited(rt: HostRuntime) -> Result<(), Fail> {
    let input = "{\"op\":\"insert\",\"doc\":1,\"at\":0,\"text\":\"a\"}\n";
    let order = Order(StoreOrder::InMemory, input);
    let due = "{\"ok\":true}\n{\"ok\":true,\"rev\":1}\n";
    turn(&rt, fresh(rt.alloc())?, &(order, 0, due, ""));
    Ok(())
}

static SESSIONS: [Session; 10] = [
    (
        "a fresh store is empty",
        "{\"op\":\"text\",\"doc\":9}\n{\"op\":\"status\"}\n",
        "{\"ok\":true,\"rev\":0,\"text\":\"\"}\n{\"applied\":0,\"ok\":true,\"settled\":0,\"state\":\"open\"}\n",
    ),
    (
        "an edit is seen and settled",
        "{\"op\":\"insert\",\"doc\":1,\"at\":0,\"text\":\"abc\"}\n{\"op\":\"text\",\"doc\":1}\n{\"op\":\"status\"}\n",
        "{\"ok\":true,\"rev\":3}\n{\"ok\":true,\"rev\":3,\"text\":\"abc\"}\n{\"applied\":3,\"ok\":true,\"settled\":3,\"state\":\"open\"}\n",
    ),
    (
        "what changed and places are told",
        "{\"op\":\"insert\",\"doc\":1,\"at\":0,\"text\":\"abc\"}\n{\"op\":\"changes\",\"doc\":1,\"since\":3}\n{\"op\":\"delete\",\"doc\":1,\"at\":1,\"count\":1}\n{\"op\":\"changes\",\"doc\":1,\"since\":3}\n{\"op\":\"changes\",\"doc\":1,\"since\":0}\n{\"op\":\"changes\",\"doc\":1,\"since\":5}\n{\"op\":\"anchors\",\"doc\":1,\"at\":[0],\"side\":\"previous\"}\n{\"op\":\"places\",\"doc\":1,\"anchors\":[\"start\",\"end\"]}\n{\"op\":\"anchors\",\"doc\":1,\"at\":[3],\"side\":\"next\"}\n",
        "{\"ok\":true,\"rev\":3}\n{\"changes\":[],\"ok\":true,\"rev\":3}\n{\"ok\":true,\"rev\":4}\n{\"changes\":[{\"retain\":1},{\"delete\":1}],\"ok\":true,\"rev\":4}\n{\"changes\":[{\"insert\":\"ac\"}],\"ok\":true,\"rev\":4}\n{\"code\":6,\"error\":\"stale\",\"ok\":false}\n{\"anchors\":[\"start\"],\"ok\":true,\"rev\":4}\n{\"ok\":true,\"places\":[0,2],\"rev\":4}\n{\"code\":5,\"error\":\"range\",\"ok\":false}\n",
    ),
    (
        "a document is told as it was, and its versions",
        "{\"op\":\"insert\",\"doc\":1,\"at\":0,\"text\":\"abc\"}\n{\"op\":\"delete\",\"doc\":1,\"at\":1,\"count\":1}\n{\"op\":\"text\",\"doc\":1,\"at_rev\":2}\n{\"op\":\"spans\",\"doc\":1,\"at_rev\":3}\n{\"op\":\"text\",\"doc\":1,\"at_rev\":5}\n{\"op\":\"versions\",\"doc\":1,\"every\":3}\n",
        "{\"ok\":true,\"rev\":3}\n{\"ok\":true,\"rev\":4}\n{\"ok\":true,\"rev\":2,\"text\":\"ab\"}\n{\"ok\":true,\"rev\":3,\"spans\":[{\"text\":\"abc\"}]}\n{\"code\":6,\"error\":\"stale\",\"ok\":false}\n{\"ok\":true,\"rev\":4,\"versions\":[{\"ops\":3,\"replica\":\"00000000-0000-4000-8000-000000000001\",\"rev\":3},{\"ops\":1,\"replica\":\"00000000-0000-4000-8000-000000000001\",\"rev\":4}]}\n",
    ),
    (
        "a text is found, and a document exported",
        "{\"op\":\"insert\",\"doc\":1,\"at\":0,\"text\":\"aaba\"}\n{\"op\":\"find\",\"doc\":1,\"text\":\"a\",\"from\":1}\n{\"op\":\"find\",\"doc\":1,\"text\":\"aab\"}\n{\"op\":\"find\",\"doc\":1,\"text\":\"\"}\n{\"op\":\"mark\",\"doc\":1,\"from\":2,\"to\":4,\"kind\":\"em\"}\n{\"op\":\"export\",\"doc\":1,\"to\":\"markdown\"}\n{\"op\":\"export\",\"doc\":1,\"to\":\"pdf\"}\n{\"op\":\"insert\",\"doc\":1,\"at\":2,\"text\":\"\\n\"}\n{\"op\":\"export\",\"doc\":1,\"to\":\"markdown\",\"breaks\":false}\n{\"op\":\"export\",\"doc\":1,\"to\":\"markdown\",\"breaks\":true}\n{\"op\":\"export\",\"doc\":1,\"to\":\"markdown\",\"breaks\":1}\n",
        "{\"ok\":true,\"rev\":4}\n{\"ok\":true,\"places\":[1,3],\"rev\":4}\n{\"ok\":true,\"places\":[0],\"rev\":4}\n{\"code\":4,\"error\":\"field\",\"ok\":false}\n{\"ok\":true,\"rev\":5}\n{\"ok\":true,\"rev\":5,\"text\":\"aa*ba*\\n\"}\n{\"code\":4,\"error\":\"field\",\"ok\":false}\n{\"ok\":true,\"rev\":6}\n{\"ok\":true,\"rev\":6,\"text\":\"aa\\n\\n*ba*\\n\"}\n{\"ok\":true,\"rev\":6,\"text\":\"aa\\\\\\n*ba*\\n\"}\n{\"code\":4,\"error\":\"field\",\"ok\":false}\n",
    ),
    (
        "the documents and the room are told",
        "{\"op\":\"insert\",\"doc\":1,\"at\":0,\"text\":\"ab\"}\n{\"op\":\"documents\"}\n{\"op\":\"room\"}\n",
        "{\"ok\":true,\"rev\":2}\n{\"documents\":[{\"chars\":2,\"doc\":1,\"ops\":2,\"writers\":[\"00000000-0000-4000-8000-000000000001\"]}],\"ok\":true}\n{\"bytes\":126,\"bytes_limit\":1073741824,\"documents\":1,\"documents_limit\":1024,\"ok\":true,\"operations\":2,\"operations_limit\":16777216,\"replicas\":1,\"replicas_limit\":16,\"steps\":2,\"steps_limit\":1048576}\n",
    ),
    (
        "edits at places that last are made, or refused",
        "{\"op\":\"insert\",\"doc\":1,\"at\":\"end\",\"text\":\"ab\"}\n{\"op\":\"edits\",\"doc\":1,\"edits\":[{\"op\":\"insert\",\"at\":\"start\",\"text\":\"x\"},{\"op\":\"mark\",\"from\":\"start\",\"to\":\"end\",\"kind\":\"em\"}]}\n{\"op\":\"spans\",\"doc\":1}\n{\"op\":\"insert\",\"doc\":1,\"at\":\"b9@00000000-0000-0000-0000-000000000001\",\"text\":\"y\"}\n",
        "{\"ok\":true,\"rev\":2}\n{\"ok\":true,\"rev\":4}\n{\"ok\":true,\"rev\":4,\"spans\":[{\"em\":true,\"text\":\"xab\"}]}\n{\"code\":5,\"error\":\"range\",\"ok\":false}\n",
    ),
    (
        "an edit is refused by its first cause",
        "{\"op\":\"insert\",\"doc\":1,\"at\":0,\"text\":\"abc\"}\n{\"op\":\"delete\",\"doc\":1,\"at\":3,\"count\":1}\n{\"op\":\"delete\",\"doc\":1,\"at\":2,\"count\":300}\n{\"op\":\"insert\",\"doc\":1,\"at\":4,\"text\":\"d\",\"rev\":2}\n{\"op\":\"delete\",\"doc\":1,\"at\":2,\"count\":1,\"rev\":3}\n",
        "{\"ok\":true,\"rev\":3}\n{\"code\":5,\"error\":\"range\",\"ok\":false}\n{\"code\":5,\"error\":\"range\",\"ok\":false}\n{\"code\":6,\"error\":\"stale\",\"ok\":false}\n{\"ok\":true,\"rev\":4}\n",
    ),
    (
        "lines that ask for nothing are refused",
        "[\n\n{\"op\":\"fly\"}\n7\n{\"op\":\"insert\",\"doc\":0,\"at\":0,\"text\":\"a\"}\n{\"op\":\"status\"}\n",
        "{\"code\":2,\"error\":\"syntax\",\"ok\":false}\n{\"code\":2,\"error\":\"syntax\",\"ok\":false}\n{\"code\":3,\"error\":\"request\",\"ok\":false}\n{\"code\":3,\"error\":\"request\",\"ok\":false}\n{\"code\":4,\"error\":\"field\",\"ok\":false}\n{\"applied\":0,\"ok\":true,\"settled\":0,\"state\":\"open\"}\n",
    ),
    (
        "after a stop edits are refused",
        "{\"op\":\"insert\",\"doc\":1,\"at\":0,\"text\":\"a\"}\n{\"op\":\"stop\"}\n{\"op\":\"insert\",\"doc\":1,\"at\":9,\"text\":\"b\"}\n{\"op\":\"text\",\"doc\":1}\n{\"op\":\"status\"}\n{\"op\":\"stop\"}\n",
        "{\"ok\":true,\"rev\":1}\n{\"ok\":true}\n{\"code\":12,\"error\":\"stopping\",\"ok\":false}\n{\"ok\":true,\"rev\":1,\"text\":\"a\"}\n{\"applied\":1,\"ok\":true,\"settled\":1,\"state\":\"stopping\"}\n{\"ok\":true}\n",
    ),
];

#[test]
fn sessions_over_a_fresh_store_are_answered(rt: HostRuntime) -> Result<(), Fail> {
    sessions(&rt, &SESSIONS)
}

#[test]
fn what_was_edited_is_there_after_opening_again(rt: HostRuntime) -> Result<(), Fail> {
    let mut disk = turns(
        &rt,
        made(&rt)?,
        &[
            (
                Order(
                    EDIT,
                    "{\"op\":\"insert\",\"doc\":1,\"at\":0,\"text\":\"a\"}\n",
                ),
                0,
                "{\"ok\":true,\"rev\":1}\n",
                "",
            ),
            (
                Dump(1),
                0,
                "{\"ok\":true,\"rev\":1,\"text\":\"a\"}\n{\"ok\":true,\"rev\":1,\"spans\":[{\"text\":\"a\"}]}\n",
                "",
            ),
            (
                Dump(9),
                0,
                "{\"ok\":true,\"rev\":0,\"text\":\"\"}\n{\"ok\":true,\"rev\":0,\"spans\":[]}\n",
                "",
            ),
            (
                Order(
                    EDIT,
                    "{\"op\":\"insert\",\"doc\":1,\"at\":1,\"text\":\"b\"}\n{\"op\":\"text\",\"doc\":1}\n",
                ),
                0,
                "{\"ok\":true,\"rev\":2}\n{\"ok\":true,\"rev\":2,\"text\":\"ab\"}\n",
                "",
            ),
            (Past(1), 0, "a", ""),
            (Past(3), 1, "", "peritext: 4 field\n"),
        ],
    );
    assert!(rt; disk.size() == Ok(24_576));
    Ok(())
}

#[test]
fn a_page_is_put_in_and_is_there_after_opening_again(rt: HostRuntime) -> Result<(), Fail> {
    turns(
        &rt,
        made(&rt)?,
        &[
            (
                Import(PageForm::Markdown, "# a\n\n*b* c"),
                0,
                "{\"characters\":5,\"dropped\":{\"heading\":1},\"ok\":true}\n",
                "",
            ),
            (
                Dump(1),
                0,
                "{\"ok\":true,\"rev\":6,\"text\":\"a\\nb c\"}\n{\"ok\":true,\"rev\":6,\"spans\":[{\"text\":\"a\\n\"},{\"em\":true,\"text\":\"b\"},{\"text\":\" c\"}]}\n",
                "",
            ),
        ],
    );
    Ok(())
}

#[test]
fn a_file_that_is_no_store_is_refused(rt: HostRuntime) -> Result<(), Fail> {
    let status = Order(EDIT, "{\"op\":\"status\"}\n");
    turn(
        &rt,
        fresh(rt.alloc())?,
        &(status, 1, "", "peritext: 42 no root\n"),
    );
    let init = StoreOrder::Init {
        file: "",
        replica: replica()?,
    };
    let again = (Order(init, ""), 1, "", "peritext: 48 not empty\n");
    let mut disk = turn(&rt, made(&rt)?, &again);
    assert!(rt; disk.write_at(15, b"4").is_ok());
    turn(&rt, disk, &(Dump(1), 1, "", "peritext: 43 bad root\n"));
    Ok(())
}

/// Faults, with their numbers and words.
static FAULTS: [(Fault, u8, &str); 15] = [
    (Fault::Memory, 1, "memory"),
    (Fault::Field, 4, "field"),
    (Fault::Failed, 9, "failed"),
    (Fault::NoRoot, 42, "no root"),
    (Fault::BadRoot, 43, "bad root"),
    (Fault::BadTable, 45, "bad table"),
    (Fault::BadStream, 46, "bad stream"),
    (Fault::BadOperation, 47, "bad operation"),
    (Fault::NotEmpty, 48, "not empty"),
    (Fault::ReadFailed, 50, "read failed"),
    (Fault::WriteFailed, 51, "write failed"),
    (Fault::SyncFailed, 52, "sync failed"),
    (Fault::OpenFailed, 54, "open failed"),
    (Fault::Socket, 70, "socket"),
    (Fault::Stream, 71, "stream"),
];

#[test]
fn a_fault_has_its_word(rt: HostRuntime) -> Result<(), Fail> {
    for (fault, number, word) in &FAULTS {
        assert_eq!(rt; fault.number(), *number);
        assert_eq!(rt; fault.to_string(rt.alloc())?.as_str(), *word);
    }
    Ok(())
}

/// Places, faults at them, and the lines that explain these.
static EXPLAINED: [(Option<Place<'static>>, Fault, &str); 3] = [
    (
        Some(Place::File("notes")),
        Fault::NotEmpty,
        "peritext: notes: something is in the file already; open it, or choose another name\n",
    ),
    (
        Some(Place::Port(80)),
        Fault::Socket,
        "peritext: port 80: a port is taken (choose another), or nobody listens where --link points (start that daemon first)\n",
    ),
    (
        None,
        Fault::Stream,
        "peritext: standard input or output failed; look at the other end of the pipe\n",
    ),
];

#[test]
fn a_refusal_is_explained(rt: HostRuntime) -> Result<(), Fail> {
    let alloc = rt.alloc();
    for (place, fault, line) in &EXPLAINED {
        let mut said = Vec::new(alloc);
        explain(alloc, *place, Sentence::from(*fault), &mut said);
        assert!(rt; said.as_slice() == line.as_bytes(), "{said:?}");
        assert_eq!(rt; fault.is_of_file(), *fault == Fault::NotEmpty);
    }
    Ok(())
}
