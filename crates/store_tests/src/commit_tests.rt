//! The calls of a commit, and the files that they leave.
use crate::test_bench::plays;
use crate::test_rows::{Case, named};
use std::test::Fail;

/// A device call that fails. Making the store takes six calls. Of its first commit's calls the
/// third, the fifth and the seventh are syncs.
const FAILURES: &str = "
    new 16 7
    begin INSERT_A : 1
    finish : write failed
    step : store failed
    begin : store failed
    new 16 8
    begin INSERT_A : 1
    finish : write failed
    step : store failed
    begin : store failed
    new 16 9
    begin INSERT_A : 1
    finish : sync failed
    step : store failed
    begin : store failed
    new 16 10
    begin INSERT_A : 1
    finish : write failed
    step : store failed
    begin : store failed
    new 16 11
    begin INSERT_A : 1
    finish : sync failed
    step : store failed
    begin : store failed
    new 16 12
    begin INSERT_A : 1
    finish : write failed
    step : store failed
    begin : store failed
    new 16 13
    begin INSERT_A : 1
    finish : sync failed
    step : store failed
    begin : store failed";

/// After one commit, after two and after three: the size, the numbers of the pages in the live slot
/// (0 or 1), and those in its table page (8 or 10).
const NUMBERS: &str = "
    new 16
    inserts 1 256 : 256
    finish : 9 writes, 3 syncs
    stop
    size : 36864
    numbers 4160 2 : [8, 0]
    numbers 32768 7 : [2, 3, 4, 5, 6, 7, 0]
    new 16
    inserts 1 256 : 256
    finish : 9 writes, 3 syncs
    inserts 257 257 : 257
    finish : 5 writes, 3 syncs
    stop
    size : 45056
    numbers 64 2 : [10, 0]
    numbers 40960 7 : [2, 3, 4, 5, 6, 9, 0]
    new 16
    inserts 1 256 : 256
    finish : 9 writes, 3 syncs
    inserts 257 257 : 257
    finish : 5 writes, 3 syncs
    inserts 258 258 : 258
    finish : 5 writes, 3 syncs
    stop
    size : 45056
    numbers 4160 2 : [8, 0]
    numbers 32768 7 : [2, 3, 4, 5, 6, 7, 0]";

static CASES: [Case; 11] = [
    (
        "a made file has two slots",
        "new 16
        stop
        is MADE | | : true",
    ),
    (
        "commits go to the lowest free pages",
        "new 16
        begin INSERT_A : 1
        finish : 4 writes, 3 syncs
        begin INSERT_B : 2
        finish : 5 writes, 3 syncs
        stop
        is TWO | ONE | INSERT_A | 00000002 | BOTH | 00000004 | : true",
    ),
    (
        "a third commit takes the freed pages",
        "new 16
        begin INSERT_A : 1
        finish : 4 writes, 3 syncs
        begin INSERT_B : 2
        finish : 5 writes, 3 syncs
        begin INSERT_C : 3
        finish : 5 writes, 3 syncs
        stop
        is TWO | THREE | ALL | 00000002 | BOTH | 00000004 | : true",
    ),
    (
        "a commit under way is busy",
        "new 16
        begin : none
        begin INSERT_A : 1
        begin INSERT_A : busy",
    ),
    (
        "commits are counted",
        "new 16
        begin INSERT_A : 1
        finish : 4 writes, 3 syncs
        count : 1
        begin INSERT_B : 2
        finish : 5 writes, 3 syncs
        count : 2",
    ),
    ("a failed call stops the store", FAILURES),
    ("new pages are the lowest free ones", NUMBERS),
    (
        "a page into which zeros come stays",
        "new 16
        filling : 48
        finish : 4 writes, 3 syncs
        inserts 49 49 : 49
        finish : 5 writes, 3 syncs
        stop
        numbers 20480 3 : [2, 4, 0]",
    ),
    (
        "a commit may take two table pages",
        "new 1032
        inserts 1 48384 : 48384
        finish : 1032 writes, 3 syncs
        stop
        size : 4227072",
    ),
    (
        "a commit on a file of the first format makes a root of the third",
        "open | OLD_ONE | INSERT_A | 00000002 |
        begin INSERT_B : 2
        finish : 4 writes, 3 syncs
        stop
        is TWO | OLD_ONE | INSERT_A | 00000002 | BOTH | 00000004 | : true",
    ),
    (
        "a whole list goes to free pages as runs",
        "open OLD_TWO | OLD_ONE | INSERT_A | 00000002 | BOTH | 00000004 |
        begin INSERT_C : 3
        finish : 5 writes, 3 syncs
        stop
        is OLD_TWO | MOVED | RUN_AB INSERT_C | 00000002 | BOTH | 00000004 | : true",
    ),
];

#[test]
fn commits_make_their_calls(rt: HostRuntime) -> Result<(), Fail> {
    for (name, rows) in &CASES {
        named(&rt, name, plays(&rt, rows))?;
    }
    Ok(())
}
