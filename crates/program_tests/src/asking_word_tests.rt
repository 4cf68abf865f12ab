//! Words that ask a daemon, check a file, or want to be told once a daemon listens.
use crate::due_words::{Due, gives};
use crate::word_tests::serving;
use command_syntax::{AskOrder, BadPort, CheckOrder, FewTexts, Order, ServeOrder};
use command_words::{OrderFault, order};
use std::alloc::Global;
use std::process::Abort;
use std::test::Fail;

#[test]
fn a_check_names_a_file(rt: HostRuntime) {
    let words = ["peritext", "check", "store"];
    let due = Order::Check(CheckOrder { file: "store" });
    gives(&rt, words.as_slice(), &Due::Is(due));
}

/// These words ask these lines of the daemon at port 7001.
fn asks<'a>(
    rt: &(impl Abort + AllocGlobal),
    words: &'a [&'a str],
    lines: &[&'a str],
) -> Result<(), Fail> {
    let lines = FewTexts::new(lines).ok_or("too many")?;
    let due = Order::Ask(AskOrder { port: 7_001, lines });
    gives(rt, words, &Due::Is(due));
    Ok(())
}

#[test]
fn an_ask_names_a_port_and_lines(rt: HostRuntime) -> Result<(), Fail> {
    asks(&rt, &["peritext", "ask", "7001"], &[])?;
    asks(&rt, &["peritext", "ask", "7001", "{}", ""], &["{}", ""])?;
    let eight = [
        "peritext", "ask", "7001", "1", "2", "3", "4", "5", "6", "7", "8",
    ];
    asks(&rt, eight.as_slice(), &eight[3..])?;
    let nine = [
        "peritext", "ask", "7001", "1", "2", "3", "4", "5", "6", "7", "8", "9",
    ];
    gives(&rt, nine.as_slice(), &Due::Field);
    Ok(())
}

#[test]
fn the_bad_port_of_an_ask_has_its_text(rt: HostRuntime) -> Result<(), Fail> {
    let words = ["peritext", "ask", "0", "{}"];
    let bad = BadPort {
        option: "PORT",
        word: "0",
    };
    gives(&rt, words.as_slice(), &Due::Port(bad));
    let text = bad.to_string(rt.alloc())?;
    let due =
        "invalid value '0' for '<PORT>': a port is a number from 1 to 65535, in decimal digits";
    assert_eq!(rt; text.as_str(), due);
    Ok(())
}

/// Whether a daemon that these words ask for tells that it is ready.
fn tells_ready(alloc: Global, words: &[&str]) -> Result<bool, Fail> {
    match order(alloc, words) {
        Ok(Order::Serve(ServeOrder { tells_ready, .. })) => Ok(tells_ready),
        Ok(_) | Err(OrderFault::Field) => Err(Fail::from("another order")),
        Err(_) => Err(Fail::from("no order")),
    }
}

#[test]
fn a_serve_tells_that_it_is_ready_if_asked(rt: HostRuntime) -> Result<(), Fail> {
    let words = [
        "peritext",
        "serve",
        "store",
        "--ready",
        "--sessions=1",
        "--peers=2",
    ];
    assert!(rt; tells_ready(rt.alloc(), words.as_slice())?);
    assert!(rt; !tells_ready(rt.alloc(), serving("1", "2").as_slice())?);
    Ok(())
}
