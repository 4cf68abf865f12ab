//! How places that last are read, and what asks for changes.
use crate::request_tests::{Lines, all_read};
use session_lines::Refusal;
use std::test::Fail;

const NO_PLACES: [&[u8]; 20] = [
    b"{\"op\":\"anchors\",\"doc\":1,\"at\":[1]}",
    b"{\"op\":\"anchors\",\"doc\":1,\"at\":[1],\"side\":\"left\"}",
    b"{\"op\":\"anchors\",\"doc\":1,\"at\":1,\"side\":\"next\"}",
    b"{\"op\":\"anchors\",\"doc\":1,\"at\":[],\"side\":\"next\"}",
    b"{\"op\":\"anchors\",\"doc\":1,\"at\":[1,-1],\"side\":\"next\"}",
    b"{\"op\":\"anchors\",\"doc\":0,\"at\":[1],\"side\":\"next\"}",
    b"{\"op\":\"anchors\",\"doc\":1,\"at\":[1],\"side\":\"next\",\"rev\":1}",
    b"{\"op\":\"places\",\"doc\":1}",
    b"{\"op\":\"places\",\"doc\":1,\"anchors\":[]}",
    b"{\"op\":\"places\",\"doc\":1,\"anchors\":\"start\"}",
    b"{\"op\":\"places\",\"doc\":1,\"anchors\":[\"start\",null]}",
    b"{\"op\":\"places\",\"doc\":1,\"anchors\":[\"Start\"]}",
    b"{\"op\":\"places\",\"doc\":1,\"anchors\":[\"a\"]}",
    b"{\"op\":\"places\",\"doc\":1,\"anchors\":[\"a1\"]}",
    b"{\"op\":\"places\",\"doc\":1,\"anchors\":[\"c1@00000000-0000-0000-0000-000000000001\"]}",
    b"{\"op\":\"places\",\"doc\":1,\"anchors\":[\"a0@00000000-0000-0000-0000-000000000001\"]}",
    b"{\"op\":\"places\",\"doc\":1,\"anchors\":[\"a01@00000000-0000-0000-0000-000000000001\"]}",
    b"{\"op\":\"places\",\"doc\":1,\"anchors\":[\"a281474976710656@00000000-0000-0000-0000-000000000001\"]}",
    b"{\"op\":\"places\",\"doc\":1,\"anchors\":[\"a1@00000000-0000-0000-0000-000000000000\"]}",
    b"{\"op\":\"places\",\"doc\":1,\"anchors\":[\"a1@00000000000000000000000000000001\"]}",
];

const NO_CHANGES: [&[u8]; 3] = [
    b"{\"op\":\"changes\",\"doc\":1}",
    b"{\"op\":\"changes\",\"doc\":1,\"since\":null}",
    b"{\"op\":\"changes\",\"doc\":1,\"since\":4294967296}",
];

static LINES: [Lines; 4] = [
    (&NO_PLACES, Err(Refusal::Field)),
    (&NO_CHANGES, Err(Refusal::Field)),
    (
        &[b"{\"op\":\"changes\",\"doc\":2,\"since\":0}"],
        Ok("Changes { doc: 2, since: 0 }"),
    ),
    (
        &[b"{\"op\":\"anchors\",\"doc\":3,\"at\":[4,0,4294967295],\"side\":\"previous\"}"],
        Ok("Anchors { doc: 3, at: Numbers { numbers: [4, 0, 4294967295] }, side: Previous }"),
    ),
];

#[test]
fn places_and_changes_are_asked_for_or_refused(rt: HostRuntime) -> Result<(), Fail> {
    all_read(&rt, &LINES)
}
