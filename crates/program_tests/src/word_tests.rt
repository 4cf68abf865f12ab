//! Words of command lines, and what they ask for.
use crate::due_words::Due::{self, Field, Is, Web};
use crate::due_words::gives;
use command_syntax::{BadPort, DumpOrder, HistoryOrder, Order, ServeOrder, StoreOrder};
use command_words::{OrderFault, order};
use op_ids::ReplicaId;
use std::process::Abort;
use std::test::Fail;

#[test]
fn an_init_names_a_file_and_a_replica(rt: HostRuntime) -> Result<(), Fail> {
    let words = [
        "peritext",
        "init",
        "a store",
        "--replica",
        "{00000000-0000-4000-8000-0000000000C1}",
    ];
    let bytes = [0, 0, 0, 0, 0, 0, 0x40, 0, 0x80, 0, 0, 0, 0, 0, 0, 0xc1];
    let asked = StoreOrder::Init {
        file: "a store",
        replica: ReplicaId::read(bytes).ok_or("nil")?,
    };
    gives(&rt, words.as_slice(), &Is(Order::Store(asked)));
    Ok(())
}

/// The words of a `serve` with these ports of sessions and peers.
pub fn serving<'a>(sessions: &'a str, peers: &'a str) -> [&'a str; 7] {
    [
        "peritext",
        "serve",
        "store",
        "--sessions",
        sessions,
        "--peers",
        peers,
    ]
}

/// A `serve` of a file and two ports, and of nothing more.
const PLAIN: ServeOrder<'static> = ServeOrder {
    file: "store",
    sessions: 7_001,
    peers: 7_002,
    link: None,
    web: None,
    ends_on_failure: false,
    logs: false,
    tells_ready: false,
};

/// What words ask for, as rows have it.
#[derive(Clone, Copy)]
enum Asked {
    /// A session in memory.
    InMemory,
    /// An edit of the file `store`.
    Edit,
    /// A dump of a document of it.
    Dump(u32),
    /// The versions of a document of it, of at most so many operations each.
    History(u32, u32),
    /// A `serve` of it with this port of sessions, and 7002 of peers: whether it joins a peer, ends
    /// on failure, and tells its events.
    Serve(u16, Option<u16>, bool, bool),
    /// A `serve` with WebSockets at this port, for the pages of these origins.
    Web(u16, &'static [&'static str]),
    /// Nothing: a number, or an id, breaks its rule.
    Nothing,
}

fn due_of(asked: Asked) -> Due<'static> {
    let file = "store";
    match asked {
        Asked::InMemory => Is(Order::Store(StoreOrder::InMemory)),
        Asked::Edit => Is(Order::Store(StoreOrder::Edit { file })),
        Asked::Dump(doc) => Is(Order::Dump(DumpOrder { file, doc })),
        Asked::History(doc, every) => Is(Order::History(HistoryOrder { file, doc, every })),
        Asked::Serve(sessions, link, ends_on_failure, logs) => Is(Order::Serve(ServeOrder {
            sessions,
            link,
            ends_on_failure,
            logs,
            ..PLAIN
        })),
        Asked::Web(port, origins) => Web(port, origins),
        Asked::Nothing => Field,
    }
}

static GIVEN: [(&[&str], Asked); 26] = [
    (&["peritext"], Asked::InMemory),
    (&["peritext", "edit", "store"], Asked::Edit),
    (&["peritext", "dump", "store", "1"], Asked::Dump(1)),
    (
        &["peritext", "dump", "store", "4294967295"],
        Asked::Dump(4_294_967_295),
    ),
    (&["peritext", "dump", "store", "007"], Asked::Dump(7)),
    (&["peritext", "dump", "store", "0"], Asked::Nothing),
    (&["peritext", "dump", "store", "4294967296"], Asked::Nothing),
    (&["peritext", "dump", "store", "1x"], Asked::Nothing),
    (&["peritext", "dump", "store", "1.0"], Asked::Nothing),
    (&["peritext", "dump", "store", "+1"], Asked::Nothing),
    (&["peritext", "dump", "store", " 1"], Asked::Nothing),
    (&["peritext", "dump", "store", ""], Asked::Nothing),
    (
        &["peritext", "history", "store", "7"],
        Asked::History(7, 4_294_967_295),
    ),
    (
        &["peritext", "history", "--every", "1", "store", "7"],
        Asked::History(7, 1),
    ),
    (
        &["peritext", "history", "store", "7", "--every=0"],
        Asked::Nothing,
    ),
    (
        &["peritext", "history", "store", "0", "--every=1"],
        Asked::Nothing,
    ),
    (
        &[
            "peritext",
            "init",
            "store",
            "--replica",
            "00000000-0000-0000-0000-000000000000",
        ],
        Asked::Nothing,
    ),
    (
        &["peritext", "init", "store", "--replica", "c1"],
        Asked::Nothing,
    ),
    (
        &["peritext", "init", "store", "--replica", ""],
        Asked::Nothing,
    ),
    (
        &[
            "peritext",
            "serve",
            "store",
            "--sessions",
            "1",
            "--peers",
            "7002",
        ],
        Asked::Serve(1, None, false, false),
    ),
    (
        &[
            "peritext",
            "serve",
            "store",
            "--sessions",
            "65535",
            "--peers",
            "7002",
        ],
        Asked::Serve(65_535, None, false, false),
    ),
    (
        &[
            "peritext",
            "serve",
            "store",
            "--sessions",
            "007",
            "--peers",
            "7002",
        ],
        Asked::Serve(7, None, false, false),
    ),
    (
        &[
            "peritext",
            "serve",
            "--link=7102",
            "--peers=7002",
            "--sessions=7001",
            "store",
        ],
        Asked::Serve(7_001, Some(7_102), false, false),
    ),
    (
        &[
            "peritext",
            "serve",
            "--origin=http://localhost:8080",
            "store",
            "--sessions",
            "7001",
            "--peers",
            "7002",
            "--web",
            "7003",
            "--origin",
            "https://page.example",
        ],
        Asked::Web(7_003, &["http://localhost:8080", "https://page.example"]),
    ),
    (
        &[
            "peritext",
            "serve",
            "store",
            "--sessions=7001",
            "--end-on-failure",
            "--peers=7002",
        ],
        Asked::Serve(7_001, None, true, false),
    ),
    (
        &[
            "peritext",
            "serve",
            "--log",
            "store",
            "--sessions=7001",
            "--peers=7002",
        ],
        Asked::Serve(7_001, None, false, true),
    ),
];

#[test]
fn words_ask_for_orders_or_break_a_rule(rt: HostRuntime) {
    // The kit's borrow checker looks up the types that `Due` holds by the names in a function.
    let _: Option<(Order<'static>, BadPort<'static>)> = None;
    for (words, asked) in &GIVEN {
        gives(&rt, words, &due_of(*asked));
    }
}

fn ends_with<'a>(rt: &(impl Abort + AllocGlobal), words: &'a [&'a str], status: i32) {
    match order(rt.alloc(), words) {
        Err(OrderFault::Usage(error)) => assert!(rt; error.exit_code() == status, "{words:?}"),
        _ => assert!(rt; false, "{words:?}"),
    }
}

/// Words of no order, and the status that the program ends with.
static OTHERS: [(&[&str], i32); 10] = [
    (&["peritext", "fly"], 2),
    (&["peritext", "edit"], 2),
    (&["peritext", "edit", "store", "more"], 2),
    (&["peritext", "init", "store"], 2),
    (&["peritext", "dump", "store", "-1"], 2),
    (&["peritext", "init", "--version"], 2),
    (&["peritext", "serve", "store", "--sessions", "1"], 2),
    (&["peritext", "serve", "--help"], 0),
    (&["peritext", "--help"], 0),
    (&["peritext", "--version"], 0),
];

#[test]
fn other_words_are_refused(rt: HostRuntime) {
    for (words, status) in &OTHERS {
        ends_with(&rt, words, *status);
    }
}
