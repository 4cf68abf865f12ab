//! Rows of text, which the tests play. Each asks something and, behind a colon, says its answer.
use std::alloc::Global;
use std::io::Eprint;
use std::test::Fail;

/// A case of a test: what it shows, and its rows.
pub(crate) type Case = (&'static str, &'static str);

/// What rows are asked of.
pub(crate) trait World {
    /// The answer to a command and the words behind it; nothing where there is nothing to tell.
    fn answer(&mut self, alloc: Global, command: &str, words: &str) -> Result<String, Fail>;
}

/// The command of a row, the words behind it, and the answer that it says.
fn parts(row: &str) -> (&str, &str, &str) {
    let (asked, answer) = row.split_once(':').unwrap_or((row, ""));
    let asked = asked.trim();
    let (command, words) = asked.split_once(' ').unwrap_or((asked, ""));
    (command, words, answer.trim())
}

/// What a row fails with.
fn wrong(row: &str, found: &str) -> Fail {
    Fail::new(format_args!("{row}, and not {found}"))
}

/// Asks row by row. One with another answer fails, and is told with what was answered.
pub(crate) fn play<W: World>(alloc: Global, world: &mut W, rows: &str) -> Result<(), Fail> {
    for row in rows.trim().lines() {
        let (command, words, expected) = parts(row);
        let found = world.answer(alloc, command, words)?;
        if found.as_str() != expected {
            return Err(wrong(row, &found));
        }
    }
    Ok(())
}

/// What a case came to; one that fails is named.
pub(crate) fn named(rt: &impl Eprint, name: &str, outcome: Result<(), Fail>) -> Result<(), Fail> {
    if outcome.is_err() {
        let _ = eprintln!(rt; "{name}");
    }
    outcome
}

/// No answer.
pub(crate) fn nothing(alloc: Global) -> Result<String, Fail> {
    Ok(String::new(alloc))
}

/// Whether something is so.
pub(crate) fn told(alloc: Global, is_so: Result<bool, Fail>) -> Result<String, Fail> {
    let is_so = is_so?;
    Ok(format!(in alloc; "{is_so}")?)
}

/// A number.
pub(crate) fn counted(alloc: Global, number: usize) -> Result<String, Fail> {
    Ok(format!(in alloc; "{number}")?)
}

/// The number of a refusal, or 0.
pub(crate) fn refused(alloc: Global, number: Result<u8, Fail>) -> Result<String, Fail> {
    counted(alloc, usize::from(number?))
}

/// The number with which words begin, and the others.
pub(crate) fn cut_number(words: &str) -> Result<(u64, &str), Fail> {
    let (number, others) = words.split_once(' ').unwrap_or((words, ""));
    Ok((number.parse()?, others))
}

/// The two numbers that words say. Where there are fewer, the others are 0.
pub(crate) fn two_of(words: &str) -> Result<(u32, u32), Fail> {
    let (first, second) = words.split_once(' ').unwrap_or((words, "0"));
    if first.is_empty() {
        return Ok((0, 0));
    }
    Ok((first.parse()?, second.parse()?))
}
