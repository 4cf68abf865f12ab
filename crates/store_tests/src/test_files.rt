//! What the tests share of files: the words of which their rows make bytes.
use crate::test_bytes::push_pieces;
use std::alloc::Global;
use std::test::Fail;

/// Words that stand for pieces of hex, where `A` stands for the replica.
static WORDS: [(&str, &str); 24] = [
    // The first insert of the replica, "a" in document 1.
    (
        "INSERT_A",
        "00000023 01 00000001 0000000000000001 A 00 00 00000061",
    ),
    // Its second, "b" behind it.
    (
        "INSERT_B",
        "00000053 01 00000001 0000000000000002 A 01 A 0000000000000001 01 0000000000000001 A
        00000062",
    ),
    // Its third, "c" behind that.
    (
        "INSERT_C",
        "00000053 01 00000001 0000000000000003 A 01 A 0000000000000002 01 0000000000000002 A
        00000063",
    ),
    // The streams of the first two, and of all three.
    (
        "BOTH",
        "00000023 01 00000001 0000000000000001 A 00 00 00000061
        00000053 01 00000001 0000000000000002 A 01 A 0000000000000001 01 0000000000000001 A
        00000062",
    ),
    (
        "ALL",
        "00000023 01 00000001 0000000000000001 A 00 00 00000061
        00000053 01 00000001 0000000000000002 A 01 A 0000000000000001 01 0000000000000001 A
        00000062
        00000053 01 00000001 0000000000000003 A 01 A 0000000000000002 01 0000000000000002 A
        00000063",
    ),
    // A run of two inserts of the replica, "a" and "b" behind it, in document 1.
    (
        "RUN_AB",
        "00000029 05 00000001 0000000000000001 A 00 00 0002 00000061 00000062",
    ),
    // A slot that is open, with version 1 and without operations.
    (
        "MADE",
        "0100000000000000 5054585450473033 0000000000000001 A
        0000000000000000 0000000000000000 00000000 00000000",
    ),
    // A slot that is open after the first commit, after the second, and after the third.
    (
        "ONE",
        "0100000000000000 5054585450473033 0000000000000002 A
        0000000000000027 0000000000000001 00000001 00000000 00000003",
    ),
    (
        "TWO",
        "0100000000000000 5054585450473033 0000000000000003 A
        000000000000007e 0000000000000002 00000001 00000000 00000005",
    ),
    (
        "THREE",
        "0100000000000000 5054585450473033 0000000000000004 A
        00000000000000d5 0000000000000003 00000001 00000000 00000003",
    ),
    // The slots of the first two commits as they were written in the first format.
    (
        "OLD_ONE",
        "0100000000000000 5054585450473031 0000000000000002 A
        0000000000000027 0000000000000001 00000001 00000000 00000003",
    ),
    (
        "OLD_TWO",
        "0100000000000000 5054585450473031 0000000000000003 A
        000000000000007e 0000000000000002 00000001 00000000 00000005",
    ),
    // A slot of a first commit of that run, as an edit of two characters writes it in the second
    // format, in the third, and in the first, which has no runs.
    (
        "RUN_OF_SECOND",
        "0100000000000000 5054585450473032 0000000000000002 A
        000000000000002d 0000000000000002 00000001 00000000 00000003",
    ),
    (
        "RUN_OF_THIRD",
        "0100000000000000 5054585450473033 0000000000000002 A
        000000000000002d 0000000000000002 00000001 00000000 00000003",
    ),
    (
        "RUN_OF_FIRST",
        "0100000000000000 5054585450473031 0000000000000002 A
        000000000000002d 0000000000000002 00000001 00000000 00000003",
    ),
    // A slot that is open after a commit of that run and the third insert, behind two commits in
    // the first format.
    (
        "MOVED",
        "0100000000000000 5054585450473033 0000000000000004 A
        0000000000000084 0000000000000003 00000001 00000000 00000003",
    ),
    // The gates of slots: an open one, and a closed one.
    ("OPEN", "0100000000000000"),
    ("CLOSED", "0000000000000000"),
    // The bodies after a file was made, after a first commit of one operation, and after a second.
    (
        "MADE_BODY",
        "5054585450473031 0000000000000001 A
        0000000000000000 0000000000000000 00000000 00000000",
    ),
    (
        "FIRST_BODY",
        "5054585450473031 0000000000000002 A
        0000000000000027 0000000000000001 00000001 00000000 00000003",
    ),
    (
        "SECOND_BODY",
        "5054585450473031 0000000000000003 A
        000000000000007e 0000000000000002 00000001 00000000 00000005",
    ),
    // What bodies begin with: one of version 1, and two of version 2, up to their table pages.
    ("VERSION_1", "5054585450473031 0000000000000001 A"),
    (
        "ONE_TABLE",
        "5054585450473031 0000000000000002 A
        0000000000000027 0000000000000001 00000001 00000000",
    ),
    (
        "TWO_TABLES",
        "5054585450473031 0000000000000002 A
        0000000000400001 0000000000000001 00000002 00000000",
    ),
];

/// The pieces of hex that a word stands for, or else itself.
fn pieces_of(word: &str) -> &str {
    for (name, pieces) in WORDS.iter() {
        if *name == word {
            return pieces;
        }
    }
    word
}

/// Puts a byte into the place of another.
fn change(at: usize, byte: u8, bytes: &mut Vec<u8>) -> Result<(), Fail> {
    if at >= bytes.len() {
        return Err("no such byte".into());
    }
    bytes[at] = byte;
    Ok(())
}

/// Appends the bytes that a word says. `|` ends a page, and fills it up with zeros; `4119=01` puts
/// the byte 1 into the place 4119.
fn put_word(word: &str, bytes: &mut Vec<u8>) -> Result<(), Fail> {
    if let Some((at, byte)) = word.split_once('=') {
        return change(at.parse()?, u8::from_str_radix(byte, 16)?, bytes);
    }
    if word == "|" {
        let end = (bytes.len() / 4096 + 1) * 4096;
        bytes.resize(end, 0)?;
        return Ok(());
    }
    push_pieces(bytes, pieces_of(word))
}

/// The bytes that words say.
pub(crate) fn bytes_of(alloc: Global, words: &str) -> Result<Vec<u8>, Fail> {
    let mut bytes = Vec::new(alloc);
    for word in words.split_whitespace() {
        put_word(word, &mut bytes)?;
    }
    Ok(bytes)
}
