//! Bytes that are said as hex, or by words that stand for some.
use std::alloc::Global;
use std::test::Fail;

/// The sixteen bytes of the first replica of these tests.
const NAME: &str = "00000000000040008000000000000001";

/// The token of these tests.
const TOKEN: &str = "000000000000400080000000000000d1";

/// Words that stand for pieces of hex.
static WORDS: [(&str, &str); 28] = [
    // An insert of "a" without origin, the first operation of its replica.
    (
        "FIRST",
        "00000023 01 00000001 0000000000000001 A 00 00 00000061",
    ),
    // An insert of "b" after it, and inserts of "c" and "d" behind these.
    (
        "SECOND",
        "00000053 01 00000001 0000000000000002 A 01 A 0000000000000001 01 0000000000000001 A
        00000062",
    ),
    (
        "THIRD",
        "00000053 01 00000001 0000000000000003 A 01 A 0000000000000002 01 0000000000000002 A
        00000063",
    ),
    (
        "FOURTH",
        "00000053 01 00000001 0000000000000004 A 01 A 0000000000000003 01 0000000000000003 A
        00000064",
    ),
    // The first two inserts as one record, and the other two.
    (
        "AB",
        "00000029 05 00000001 0000000000000001 A 00 00 0002 00000061 00000062",
    ),
    (
        "CD",
        "00000059 05 00000001 0000000000000003 A 01 A 0000000000000002 01 0000000000000002 A
        0002 00000063 00000064",
    ),
    // What the run of a text has before its characters that is typed into a fresh store.
    ("F", "05 00000001 0000000000000001 A 00 00"),
    // Strong over "a" to the end of the text.
    (
        "STRONG",
        "00000051 03 00000001 0000000000000002 A 01 A 0000000000000001 01 01 0000000000000001 A
        03",
    ),
    // Strong removed from the start to the end of the text.
    (
        "NO_STRONG",
        "00000021 04 00000001 0000000000000001 A 00 01 00 03",
    ),
    // A link over the text up to "a", a comment over the text, and a remove of "a".
    (
        "LINK",
        "0000003d 03 00000001 0000000000000001 A 00 03 0002 c3a9 00 02 0000000000000001 A",
    ),
    (
        "COMMENT",
        "00000031 03 00000001 0000000000000001 A 00 04 00000000000000000000000000000000 00 03",
    ),
    (
        "REMOVE",
        "00000036 02 00000001 0000000000000001 A 00 0000000000000001 A",
    ),
    // The first insert with the token of these tests.
    (
        "WITH_TOKEN",
        "00000033 11 00000001 0000000000000001 A 00 T 00 00000061",
    ),
    // Two deps of one replica, and the same, of which the second counts nothing.
    (
        "TWICE",
        "00000053 01 00000001 0000000000000002 A 02 A 0000000000000001 A 0000000000000001 00
        00000062",
    ),
    (
        "TWICE_FOR_NOTHING",
        "00000053 01 00000001 0000000000000002 A 02 A 0000000000000001 A 0000000000000000 00
        00000062",
    ),
    // Frames of links.
    ("HELLO", "00000013 01 0003 A"),
    (
        "NIL_HELLO",
        "00000013 01 0003 00000000000000000000000000000000",
    ),
    ("EMPTY_HAVE", "00000002 02 00"),
    ("HAVE", "0000001a 02 01 A 0000000000000001"),
    ("BYE", "00000001 04"),
    (
        "OPERATIONS",
        "0000002a 03 0001 00000023 01 00000001 0000000000000001 A 00 00 00000061",
    ),
    // "ab", typed in one edit.
    (
        "RUN",
        "00000030 03 0001 00000029 05 00000001 0000000000000001 A 00 00 0002 00000061 00000062",
    ),
    // A clock of one replica twice, a scalar value that is none, fewer operations than are told,
    // bytes behind a record, a run that is cut, and one of a single character.
    (
        "FALLING",
        "00000032 02 02 A 0000000000000001 A 0000000000000001",
    ),
    (
        "SURROGATE",
        "0000002a 03 0001 00000023 01 00000001 0000000000000001 A 00 00 0000d800",
    ),
    (
        "FEWER",
        "0000002a 03 0002 00000023 01 00000001 0000000000000001 A 00 00 00000061",
    ),
    (
        "MORE_BEHIND",
        "0000002b 03 0001 00000023 01 00000001 0000000000000001 A 00 00 00000061 00",
    ),
    (
        "CUT_RUN",
        "0000002f 03 0001 00000029 05 00000001 0000000000000001 A 00 00 0002 00000061 000000",
    ),
    (
        "RUN_OF_ONE",
        "00000030 03 0001 00000029 05 00000001 0000000000000001 A 00 00 0001 00000061 00000062",
    ),
];

/// The pieces of hex that a word stands for, or else itself.
fn pieces_of(word: &str) -> &str {
    for (name, pieces) in WORDS.iter() {
        if *name == word {
            return pieces;
        }
    }
    word
}

/// Puts the bytes that hex digits say behind the others.
fn push_digits(bytes: &mut Vec<u8>, digits: &str) -> Result<(), Fail> {
    let mut high = None;
    for digit in digits.chars() {
        let value = (digit.to_digit(16).ok_or("a digit")? % 16) as u8;
        match high {
            None => high = Some(value),
            Some(first) => {
                bytes.push(first % 16 * 16 + value)?;
                high = None;
            }
        }
    }
    Ok(())
}

/// Puts the bytes that pieces of hex say behind the others, where `A` stands for the replica, `T`
/// for the token and `N` for eight zeros.
pub(crate) fn push_pieces(bytes: &mut Vec<u8>, pieces: &str) -> Result<(), Fail> {
    for piece in pieces.split_whitespace() {
        let digits = match piece {
            "A" => NAME,
            "T" => TOKEN,
            "N" => "0000000000000000",
            _ => piece,
        };
        push_digits(bytes, digits)?;
    }
    Ok(())
}

/// The bytes that words say.
pub(crate) fn bytes_of(alloc: Global, words: &str) -> Result<Vec<u8>, Fail> {
    let mut bytes = Vec::new(alloc);
    for word in words.split_whitespace() {
        push_pieces(&mut bytes, pieces_of(word))?;
    }
    Ok(bytes)
}
