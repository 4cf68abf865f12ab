//! What comes of the rows of tables, and bytes that are put together.
use session_lines::Refusal;
use std::alloc::{AllocError, Global};
use std::fmt::Debug;
use std::io::Eprint;
use std::test::Fail;

/// Tells which row isn't so, or ends in an error.
pub fn judged(rt: &impl Eprint, row: &str, is_so: Result<bool, Fail>) -> Result<(), Fail> {
    match is_so {
        Ok(true) => Ok(()),
        Ok(false) => Err(Fail::new(format_args!("not so: {row}"))),
        Err(fail) => {
            let _ = eprintln!(rt; "ends in an error: {row}");
            Err(fail)
        }
    }
}

/// Bytes as a row's name.
pub fn shown(bytes: &[u8]) -> &str {
    str::from_utf8(bytes).unwrap_or("what isn't UTF-8")
}

/// Bytes, and how often they stand one behind the other.
pub type Part<'a> = (&'a [u8], usize);

/// All parts, one after another.
pub fn made(alloc: Global, parts: &[Part<'_>]) -> Result<Vec<u8>, AllocError> {
    let mut all = Vec::new(alloc);
    for (bytes, times) in parts {
        for _ in 0..*times {
            all.extend_from_slice(bytes)?;
        }
    }
    Ok(all)
}

/// Whether this is the Debug text of what is found.
fn is_shown<T: Debug>(alloc: Global, found: &T, text: &str) -> Result<bool, Fail> {
    let shown = format!(in alloc; "{found:?}")?;
    Ok(shown.as_str() == text)
}

/// Whether a line is read as what has this Debug text, or is refused so.
pub fn is_found<T: Debug + Drop>(
    alloc: Global,
    found: Result<T, Refusal>,
    due: Result<&str, Refusal>,
) -> Result<bool, Fail> {
    match found {
        Ok(found) => is_shown(alloc, &found, due.unwrap_or("")),
        Err(refusal) => Ok(due == Err(refusal)),
    }
}
