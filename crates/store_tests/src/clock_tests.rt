//! Clocks: entries, order, limits.
use crate::test_names::replica;
use crate::test_rows::{Case, World, counted, named, nothing, play, told};
use op_ids::{Clock, ClockError, ReplicaId};
use std::alloc::Global;
use std::test::Fail;

/// A replica and its count: `9=5`.
fn entry(word: &str) -> Result<(ReplicaId, u64), Fail> {
    let (last, count) = word.split_once('=').ok_or("a count")?;
    Ok((replica(last.parse()?)?, count.parse()?))
}

/// The clock with these counts, or `None` where they aren't those of a clock.
fn try_clock(alloc: Global, words: &str) -> Result<Option<Clock>, Fail> {
    let mut entries = Vec::new(alloc);
    for word in words.split_whitespace() {
        entries.push(entry(word)?)?;
    }
    Ok(Clock::from_entries(entries))
}

/// Whether these counts are a clock's.
fn is_clock(alloc: Global, words: &str) -> Result<bool, Fail> {
    Ok(try_clock(alloc, words)?.is_some())
}

fn clock_of(alloc: Global, words: &str) -> Result<Clock, Fail> {
    Ok(try_clock(alloc, words)?.ok_or("no clock")?)
}

/// Nothing, or the number of the refusal.
fn said(alloc: Global, answer: Result<(), ClockError>) -> Result<String, Fail> {
    match answer {
        Ok(()) => nothing(alloc),
        Err(error) => counted(alloc, usize::from(error.number())),
    }
}

/// Puts another clock there.
fn set(alloc: Global, clock: &mut Clock, words: &str) -> Result<String, Fail> {
    *clock = clock_of(alloc, words)?;
    nothing(alloc)
}

/// Whether a copy of a clock is the clock.
fn is_copied(clock: &Clock) -> Result<bool, Fail> {
    Ok(clock.copy()? == *clock)
}

/// Whether a clock is that with these counts.
fn is_equal(alloc: Global, clock: &Clock, words: &str) -> Result<bool, Fail> {
    Ok(*clock == clock_of(alloc, words)?)
}

/// Joins a clock with that of these counts.
fn join(alloc: Global, clock: &mut Clock, words: &str) -> Result<String, Fail> {
    let other = clock_of(alloc, words)?;
    said(alloc, clock.join(&other))
}

/// Counts one more operation of a replica.
fn advance(alloc: Global, clock: &mut Clock, words: &str) -> Result<String, Fail> {
    let replica = replica(words.parse()?)?;
    said(alloc, clock.advance(replica))
}

/// How many operations of a replica a copy of a clock counts.
fn count(alloc: Global, clock: &Clock, words: &str) -> Result<String, Fail> {
    let replica = replica(words.parse()?)?;
    let count = clock.copy()?.get(replica);
    Ok(format!(in alloc; "{count}")?)
}

/// Whether an operation of the first replica with deps of these counts may come behind a clock.
fn is_ready(alloc: Global, clock: &Clock, words: &str) -> Result<bool, Fail> {
    let deps = clock_of(alloc, words)?;
    Ok(clock.ready(replica(1)?, &deps))
}

impl World for Clock {
    fn answer(&mut self, alloc: Global, command: &str, words: &str) -> Result<String, Fail> {
        match command {
            "set" => set(alloc, self, words),
            "copy" => told(alloc, is_copied(self)),
            "is" => told(alloc, is_equal(alloc, self, words)),
            "get" => count(alloc, self, words),
            "advance" => advance(alloc, self, words),
            "join" => join(alloc, self, words),
            "ready" => told(alloc, is_ready(alloc, self, words)),
            "try" => told(alloc, is_clock(alloc, words)),
            _ => Err("no such command".into()),
        }
    }
}

/// Plays rows over an empty clock.
fn plays(rt: &HostRuntime, rows: &str) -> Result<(), Fail> {
    play(rt.alloc(), &mut Clock::new(rt.alloc()), rows)
}

static CASES: [Case; 7] = [
    (
        "a copy has the same counts",
        "set 1=5 9=16777216
        copy : true
        get 9 : 16777216",
    ),
    (
        "advancing puts replicas in order",
        "advance 9
        advance 1
        advance 5
        advance 1
        is 1=2 5=1 9=1 : true",
    ),
    (
        "joining takes the greater counts",
        "set 1=2 5=7
        join 1=3 2=4 5=6
        is 1=3 2=4 5=7 : true",
    ),
    (
        "a seventeenth replica is refused",
        "advance 1
        advance 2
        advance 3
        advance 4
        advance 5
        advance 6
        advance 7
        advance 8
        advance 9
        advance 10
        advance 11
        advance 12
        advance 13
        advance 14
        advance 15
        advance 16
        advance 17 : 7
        join 17=1 : 7
        is 1=1 2=1 3=1 4=1 5=1 6=1 7=1 8=1 9=1 10=1 11=1 12=1 13=1 14=1 15=1 16=1 : true",
    ),
    (
        "a count above the last is refused",
        "set 1=16777215
        advance 1
        advance 1 : 7
        get 1 : 16777216",
    ),
    (
        "an operation waits for what it depends on",
        "set 1=1 2=3 4=1
        ready 1=1 2=3 : true
        set 1=1 2=2
        ready 1=1 2=3 : false
        set 1=2 2=3
        ready 1=1 2=3 : false",
    ),
    (
        "entries that are no clock are refused",
        "try 1=1 2=1 : true
        try 2=1 1=1 : false
        try 1=1 1=1 : false
        try 1=0 2=1 : false
        try 1=1 2=16777217 : false",
    ),
];

#[test]
fn clocks_keep_their_order_and_their_limits(rt: HostRuntime) -> Result<(), Fail> {
    for (name, rows) in &CASES {
        named(&rt, name, plays(&rt, rows))?;
    }
    Ok(())
}
