//! What a check of a file, and the versions of a document, tell.
use crate::test_runs::{EDIT, What, fresh, made, turns};
use std::test::Fail;

const EMPTY: &str =
    "{\"bytes\":0,\"documents\":0,\"format\":3,\"live\":{\"page\":0,\"version\":1},\"ok\":true,\"operations\":0,\"replica\":\"00000000-0000-4000-8000-000000000001\",\"replicas\":0,\"stale\":\"empty\"}\n";

const ONCE: &str =
    "{\"bytes\":126,\"documents\":1,\"format\":3,\"live\":{\"page\":1,\"version\":2},\"ok\":true,\"operations\":2,\"replica\":\"00000000-0000-4000-8000-000000000001\",\"replicas\":1,\"stale\":\"older\"}\n";

#[test]
fn a_check_tells_what_is_there(rt: HostRuntime) -> Result<(), Fail> {
    let insert = "{\"op\":\"insert\",\"doc\":7,\"at\":0,\"text\":\"ab\"}\n";
    let rows = [
        (What::Check, 0, EMPTY, ""),
        (
            What::Order(EDIT, insert),
            0,
            "{\"ok\":true,\"rev\":2}\n",
            "",
        ),
        (What::Check, 0, ONCE, ""),
    ];
    let _ = turns(&rt, made(&rt)?, &rows);
    Ok(())
}

const ONE_WRITER: &str =
    "{\"ok\":true,\"rev\":3,\"versions\":[{\"ops\":3,\"replica\":\"00000000-0000-4000-8000-000000000001\",\"rev\":3}]}\n";

const BY_TWO: &str =
    "{\"ok\":true,\"rev\":3,\"versions\":[{\"ops\":2,\"replica\":\"00000000-0000-4000-8000-000000000001\",\"rev\":2},{\"ops\":1,\"replica\":\"00000000-0000-4000-8000-000000000001\",\"rev\":3}]}\n";

#[test]
fn versions_are_told_of_a_document(rt: HostRuntime) -> Result<(), Fail> {
    let inserts =
        "{\"op\":\"insert\",\"doc\":1,\"at\":0,\"text\":\"abc\"}\n{\"op\":\"insert\",\"doc\":7,\"at\":0,\"text\":\"d\"}\n";
    let rows = [
        (
            What::History(1),
            0,
            "{\"ok\":true,\"rev\":0,\"versions\":[]}\n",
            "",
        ),
        (
            What::Order(EDIT, inserts),
            0,
            "{\"ok\":true,\"rev\":3}\n{\"ok\":true,\"rev\":1}\n",
            "",
        ),
        (What::History(u32::MAX), 0, ONE_WRITER, ""),
        (What::History(2), 0, BY_TWO, ""),
    ];
    let _ = turns(&rt, made(&rt)?, &rows);
    Ok(())
}

#[test]
fn what_is_no_store_is_refused(rt: HostRuntime) -> Result<(), Fail> {
    let refused = [
        (What::Check, 1, "", "peritext: 42 no root\n"),
        (What::History(1), 1, "", "peritext: 42 no root\n"),
    ];
    let _ = turns(&rt, fresh(rt.alloc())?, &refused);
    Ok(())
}
