//! Links that speak and hear.
use crate::test_bytes::bytes_of;
use crate::test_links::{clock, next_of, number, started};
use crate::test_names::replica;
use crate::test_ops::{op, ops};
use crate::test_rows::{World, counted, named, nothing, play, refused, told};
use causal_sync::Link;
use op_ids::OpId;
use op_model::Op;
use std::alloc::Global;
use std::test::Fail;

/// Both inserts of the replica: the first one, and the one that is typed behind it.
const BOTH: &str = "1 insert 0 a
    2 insert 1 b";

/// Whether a link hears just the frames of a conversation.
fn hears_all(alloc: Global, link: &mut Link) -> Result<bool, Fail> {
    let names = [
        "hello",
        "empty have",
        "have",
        "operation",
        "run",
        "bye",
        "nothing",
    ];
    for name in names {
        if next_of(alloc, link)? != name {
            return Ok(false);
        }
    }
    Ok(true)
}

/// Whether a link that is fed these pieces hears the whole conversation, and takes no more.
fn is_heard(alloc: Global, pieces: &[&[u8]]) -> Result<bool, Fail> {
    let mut link = started(alloc, 2)?;
    for piece in pieces {
        if link.feed(piece).is_err() {
            return Ok(false);
        }
    }
    Ok(link.held() == 0 && hears_all(alloc, &mut link)? && number(link.feed(&[])) == 27)
}

/// Whether these bytes are heard as the conversation, cut in two at each place and into bytes.
fn is_heard_cut(alloc: Global, words: &str) -> Result<bool, Fail> {
    let bytes = bytes_of(alloc, words)?;
    for at in 0..bytes.len() {
        if !is_heard(alloc, &[&bytes[..at], &bytes[at..]])? {
            return Ok(false);
        }
    }
    let single: Vec<&[u8]> = bytes.chunks(1).collect(alloc)?;
    is_heard(alloc, &single)
}

/// An operation like the first insert of another replica.
fn first_of(alloc: Global, words: &str) -> Result<Op, Fail> {
    let id = OpId::try_new(1, replica(words.parse()?)?).ok_or("counter")?;
    let mut first = op(alloc, 1, "1 insert 0 a")?;
    first.id = id;
    Ok(first)
}

/// The answer to the saying of it.
fn say_first(alloc: Global, link: &mut Link, words: &str) -> Result<u8, Fail> {
    let first = first_of(alloc, words)?;
    Ok(number(link.say_ops(std::slice::from_ref(&first))))
}

/// The answer to the saying of both inserts of the replica.
fn say_both(alloc: Global, link: &mut Link) -> Result<u8, Fail> {
    let both = ops(alloc, 1, BOTH)?;
    if both.len() != 2 {
        return Err("two operations".into());
    }
    Ok(number(link.say_ops(&both)))
}

/// The answer to the saying of a clock of so many operations.
fn say_have(alloc: Global, link: &mut Link, words: &str) -> Result<u8, Fail> {
    let clock = clock(alloc, words.parse()?)?;
    Ok(number(link.say_have(&clock)))
}

/// Whether a HAVE was heard, how much the base counts of the replica, and how many replicas it has.
fn base(alloc: Global, link: &Link) -> Result<String, Fail> {
    let (has_heard, base) = (link.has_heard_have(), link.base());
    let (count, replicas) = (base.get(replica(1)?), base.len());
    Ok(format!(in alloc; "{has_heard} {count} {replicas}")?)
}

/// Puts a new link of a replica there.
fn renew(alloc: Global, link: &mut Link, words: &str) -> Result<String, Fail> {
    *link = Link::start(alloc, replica(words.parse()?)?)?;
    nothing(alloc)
}

/// What a link hears next.
fn hear(alloc: Global, link: &mut Link) -> Result<String, Fail> {
    Ok(String::from_str(alloc, next_of(alloc, link)?)?)
}

impl World for Link {
    fn answer(&mut self, alloc: Global, command: &str, words: &str) -> Result<String, Fail> {
        match command {
            "link" => renew(alloc, self, words),
            "cut" => told(alloc, is_heard_cut(alloc, words)),
            "feed" => refused(alloc, feed(alloc, self, words)),
            "hear" => hear(alloc, self),
            "have" => refused(alloc, say_have(alloc, self, words)),
            "first" => refused(alloc, say_first(alloc, self, words)),
            "both" => refused(alloc, say_both(alloc, self)),
            "bye" => refused(alloc, Ok(number(self.say_bye()))),
            "sends" => told(alloc, sends(alloc, self, words)),
            "held" => counted(alloc, self.held()),
            "base" => base(alloc, self),
            _ => Err("no such command".into()),
        }
    }
}

/// The number of the refusal of bytes, or 0.
fn feed(alloc: Global, link: &mut Link, words: &str) -> Result<u8, Fail> {
    let bytes = bytes_of(alloc, words)?;
    Ok(number(link.feed(&bytes)))
}

/// Whether a link has just these bytes to send.
fn sends(alloc: Global, link: &mut Link, words: &str) -> Result<bool, Fail> {
    let bytes = bytes_of(alloc, words)?;
    Ok(link.take_out().as_slice() == bytes.as_slice())
}

/// Plays rows over a new link of a replica.
fn plays(rt: &HostRuntime, own: u8, rows: &str) -> Result<(), Fail> {
    let mut link = started(rt.alloc(), own)?;
    play(rt.alloc(), &mut *link, rows)
}

static CASES: [(&str, u8, &str); 7] = [
    (
        "frames are heard however they are cut",
        2,
        "cut HELLO EMPTY_HAVE HAVE OPERATIONS RUN BYE : true",
    ),
    (
        "the last have is the base",
        2,
        "feed HELLO EMPTY_HAVE HAVE OPERATIONS RUN BYE : 0
        hear : hello
        base : false 0 0
        hear : empty have
        base : true 0 0
        hear : have
        base : true 1 1",
    ),
    (
        "what is said is spelled",
        1,
        "sends HELLO : true
        have 0 : 0
        have 1 : 0
        first 1 : 0
        bye : 0
        sends EMPTY_HAVE HAVE OPERATIONS BYE : true
        sends : true
        base : false 1 1
        bye : 27",
    ),
    (
        "typed operations are told in one run",
        1,
        "sends HELLO : true
        both : 0
        sends RUN : true
        base : false 2 1",
    ),
    (
        "frames before a fault are given",
        2,
        "feed HELLO HAVE 00000000 : 25
        feed HELLO HAVE 00000000 : 27
        have 0 : 27
        hear : hello
        hear : have
        hear : nothing
        held : 0",
    ),
    // A scalar value that is none, and fewer operations than are told.
    (
        "operations that break a rule end the link",
        2,
        "feed HELLO SURROGATE : 33
        feed HELLO SURROGATE : 27
        have 0 : 27
        hear : hello
        hear : nothing
        link 2
        feed HELLO FEWER : 25
        feed HELLO FEWER : 27
        have 0 : 27
        hear : hello
        hear : nothing",
    ),
    (
        "a seventeenth replica isnt sent",
        1,
        "first 1 : 0
        first 2 : 0
        first 3 : 0
        first 4 : 0
        first 5 : 0
        first 6 : 0
        first 7 : 0
        first 8 : 0
        first 9 : 0
        first 10 : 0
        first 11 : 0
        first 12 : 0
        first 13 : 0
        first 14 : 0
        first 15 : 0
        first 16 : 0
        first 17 : 7
        base : false 1 16",
    ),
];

#[test]
fn links_speak_and_hear(rt: HostRuntime) -> Result<(), Fail> {
    for (name, number, rows) in &CASES {
        named(&rt, name, plays(&rt, *number, rows))?;
    }
    Ok(())
}
