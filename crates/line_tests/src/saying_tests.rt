//! How answers are said.
use crate::answer_rows::{Marked, Step, Told, answer_of};
use crate::rows::{Part, judged, made};
use session_lines::{Answer, Refusal, State, say};
use std::alloc::Global;
use std::test::Fail;

/// Whether an answer is put as this text behind what is there, and without memory not at all.
fn is_said(alloc: Global, answer: &Answer, text: &[u8]) -> Result<bool, Fail> {
    let mut out = Vec::from_slice(alloc, b"before")?;
    if say(alloc, answer, &mut out).is_err() {
        if out.as_slice() != b"before".as_slice() {
            return Ok(false);
        }
        say(alloc, answer, &mut out)?;
    }
    Ok(out.as_slice().strip_prefix(b"before") == Some(text))
}

const NO_MARKS: Marked = Marked {
    strong: false,
    em: false,
    link: None,
    comments: &[],
};

/// All marks that a character can have at once.
const ALL_MARKS: Marked = Marked {
    strong: true,
    em: true,
    link: Some("u"),
    comments: &[[0; 16]],
};

/// Characters of each kind that is written in its own way, and how they are written.
const KINDS: &str = "a\"\\\n\u{1}é😀";

const KINDS_SAID: &[u8] = b"a\\\"\\\\\\n\\u0001\xc3\xa9\xf0\x9f\x98\x80";

/// The name of a replica.
const WRITER: [u8; 16] = [
    0x0f, 0x5d, 0x2c, 0x4e, 0x9a, 0x1b, 0x4c, 0x3d, 0x8e, 0x7f, 0x11, 0x22, 0x33, 0x44, 0x55, 0x66,
];

/// What an answer shows, how many operations there are, what is told, and how it is said.
type Row = (&'static str, u64, Told, &'static [Part<'static>]);

static ROWS: [Row; 20] = [
    (
        "an edit",
        3,
        Told::Edited,
        &[(b"{\"ok\":true,\"rev\":3}\n", 1)],
    ),
    ("a stop", 0, Told::Stopped, &[(b"{\"ok\":true}\n", 1)]),
    ("nothing", 0, Told::Done, &[(b"{\"ok\":true}\n", 1)]),
    (
        "the status",
        0,
        Told::Status(2, 0, State::Failed),
        &[(
            b"{\"applied\":2,\"ok\":true,\"settled\":0,\"state\":\"failed\"}\n",
            1,
        )],
    ),
    (
        "a refusal",
        0,
        Told::Refused(Refusal::Limit),
        &[(b"{\"code\":7,\"error\":\"limit\",\"ok\":false}\n", 1)],
    ),
    (
        "a refusal says which edit it means",
        0,
        Told::RefusedAt(Refusal::Range, 2),
        &[(
            b"{\"at\":2,\"code\":5,\"error\":\"range\",\"ok\":false}\n",
            1,
        )],
    ),
    (
        "the last edit that a number can mean",
        0,
        Told::RefusedAt(Refusal::Stopping, 18_446_744_073_709_551_615),
        &[(
            b"{\"at\":18446744073709551615,\"code\":12,\"error\":\"stopping\",\"ok\":false}\n",
            1,
        )],
    ),
    (
        "an empty text",
        0,
        Told::Text("", 1),
        &[(b"{\"ok\":true,\"rev\":0,\"text\":\"\"}\n", 1)],
    ),
    (
        "a text",
        5,
        Told::Text("a\"\n\u{1}😀", 1),
        &[(
            b"{\"ok\":true,\"rev\":5,\"text\":\"a\\\"\\n\\u0001\xf0\x9f\x98\x80\"}\n",
            1,
        )],
    ),
    (
        "a long text",
        5,
        Told::Text(KINDS, 700),
        &[
            (b"{\"ok\":true,\"rev\":5,\"text\":\"", 1),
            (KINDS_SAID, 700),
            (b"\"}\n", 1),
        ],
    ),
    (
        "spans with marks and without",
        4,
        Told::Spans(&[
            (
                "ab",
                1,
                Marked {
                    strong: true,
                    em: true,
                    link: Some("u"),
                    comments: &[
                        [0, 0, 0, 0, 0, 0, 0, 0, 0, 0, 0, 0, 0, 0, 0, 0xc1],
                        [0xab; 16],
                    ],
                },
            ),
            ("xc", 1, NO_MARKS),
        ]),
        &[(
            b"{\"ok\":true,\"rev\":4,\"spans\":[{\"comments\":[\"00000000-0000-0000-0000-0000000000c1\",\"abababab-abab-abab-abab-abababababab\"],\"em\":true,\"link\":\"u\",\"strong\":true,\"text\":\"ab\"},{\"text\":\"xc\"}]}\n",
            1,
        )],
    ),
    (
        "no spans",
        0,
        Told::Spans(&[]),
        &[(b"{\"ok\":true,\"rev\":0,\"spans\":[]}\n", 1)],
    ),
    (
        "a long span",
        5,
        Told::Spans(&[(
            KINDS,
            700,
            Marked {
                strong: true,
                em: false,
                link: Some(KINDS),
                comments: &[],
            },
        )]),
        &[
            (b"{\"ok\":true,\"rev\":5,\"spans\":[{\"link\":\"", 1),
            (KINDS_SAID, 1),
            (b"\",\"strong\":true,\"text\":\"", 1),
            (KINDS_SAID, 700),
            (b"\"}]}\n", 1),
        ],
    ),
    (
        "no versions",
        0,
        Told::Versions(&[]),
        &[(b"{\"ok\":true,\"rev\":0,\"versions\":[]}\n", 1)],
    ),
    (
        "versions",
        20,
        Told::Versions(&[(WRITER, 9, 9), ([0xab; 16], 20, 11)]),
        &[(
            b"{\"ok\":true,\"rev\":20,\"versions\":[{\"ops\":9,\"replica\":\"0f5d2c4e-9a1b-4c3d-8e7f-112233445566\",\"rev\":9},{\"ops\":11,\"replica\":\"abababab-abab-abab-abab-abababababab\",\"rev\":20}]}\n",
            1,
        )],
    ),
    (
        "no peers",
        0,
        Told::Peers(&[], 1),
        &[(b"{\"ok\":true,\"peers\":[],\"sessions\":1}\n", 1)],
    ),
    (
        "peers",
        0,
        Told::Peers(&[(1, 12, 0), (2, 3, 9)], 32),
        &[(
            b"{\"ok\":true,\"peers\":[{\"has\":12,\"lacks\":0,\"replica\":\"00000000-0000-0000-0000-000000000001\"},{\"has\":3,\"lacks\":9,\"replica\":\"00000000-0000-0000-0000-000000000002\"}],\"sessions\":32}\n",
            1,
        )],
    ),
    (
        "places that last are said as they are read",
        5,
        Told::Anchors(
            b"{\"op\":\"places\",\"doc\":3,\"anchors\":[\"start\",\"a1@00000000-0000-0000-0000-00000000000A\",\"b281474976710655@f0000000-0000-0000-0000-000000000001\",\"end\"]}",
        ),
        &[(
            b"{\"anchors\":[\"start\",\"a1@00000000-0000-0000-0000-00000000000a\",\"b281474976710655@f0000000-0000-0000-0000-000000000001\",\"end\"],\"ok\":true,\"rev\":5}\n",
            1,
        )],
    ),
    (
        "numbers of places",
        20,
        Told::Places(&[Some(7), None, Some(0)]),
        &[(b"{\"ok\":true,\"places\":[7,null,0],\"rev\":20}\n", 1)],
    ),
    (
        "changes",
        20,
        Told::Changes(&[
            Step::Keep(4),
            Step::Put("a\"", 1, NO_MARKS),
            Step::Put("b", 1, ALL_MARKS),
            Step::Go(3),
            Step::Mark(9, NO_MARKS),
            Step::Mark(2, ALL_MARKS),
            Step::Keep(5),
        ]),
        &[(
            b"{\"changes\":[{\"retain\":4},{\"insert\":\"a\\\"\"},{\"attributes\":{\"comments\":[\"00000000-0000-0000-0000-000000000000\"],\"em\":true,\"link\":\"u\",\"strong\":true},\"insert\":\"b\"},{\"delete\":3},{\"attributes\":{\"comments\":null,\"em\":null,\"link\":null,\"strong\":null},\"retain\":9},{\"attributes\":{\"comments\":[\"00000000-0000-0000-0000-000000000000\"],\"em\":true,\"link\":\"u\",\"strong\":true},\"retain\":2}],\"ok\":true,\"rev\":20}\n",
            1,
        )],
    ),
];

/// Whether what a row tells is said as this text.
fn is_told(alloc: Global, row: &Row, text: &[u8]) -> Result<bool, Fail> {
    let answer = answer_of(alloc, row.1, &row.2)?;
    is_said(alloc, &answer, text)
}

/// Whether the answer of a row is said as it stands there.
fn is_so(alloc: Global, row: &Row) -> Result<bool, Fail> {
    let text = made(alloc, row.3)?;
    is_told(alloc, row, &text)
}

#[test]
fn answers_are_said_whole(rt: HostRuntime) -> Result<(), Fail> {
    for row in &ROWS {
        judged(&rt, row.0, is_so(rt.alloc(), row))?;
    }
    Ok(())
}
