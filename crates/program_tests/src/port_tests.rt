//! Words that name no port, and what is told of them.
use crate::due_words::{Due, gives};
use crate::word_tests::serving;
use command_syntax::BadPort;
use command_words::order;
use std::process::Abort;
use std::test::Fail;

/// Words that break the rule of a port.
static NO_PORTS: [&str; 9] = [
    "0",
    "65536",
    "4294967376",
    "1x",
    "1.0",
    "+1",
    " 1",
    "1 ",
    "",
];

#[test]
fn the_first_bad_port_is_told(rt: HostRuntime) -> Result<(), Fail> {
    for word in &NO_PORTS {
        for (words, option) in [
            (serving(word, "7002"), "sessions"),
            (serving("7001", word), "peers"),
            (serving(word, word), "sessions"),
        ] {
            gives(&rt, words.as_slice(), &Due::Port(BadPort { option, word }));
        }
    }
    Ok(())
}

#[test]
fn a_bad_port_has_its_text(rt: HostRuntime) -> Result<(), Fail> {
    let words = [
        "peritext",
        "serve",
        "store",
        "--sessions",
        "1",
        "--peers",
        "2",
        "--link=-1",
    ];
    let text = match order(rt.alloc(), words.as_slice()) {
        Ok(_) => return Err(Fail::from("no fault")),
        Err(fault) => fault.to_string(rt.alloc())?,
    };
    let due =
        "invalid value '-1' for '--link <PORT>': a port is a number from 1 to 65535, in decimal digits";
    assert_eq!(rt; text.as_str(), due);
    Ok(())
}
