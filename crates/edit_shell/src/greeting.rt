//! What whoever starts the program at a terminal without words is told.

use std::env;
use std::io::{IsTerminal, Write};
use std::rt::Env;

const GREETING: &[u8] = b"peritext: a session over a new store in memory, which is gone at its \
end. It waits for requests, a line\nperitext: each; Ctrl-D ends it. 'peritext --help' tells of \
files and of requests.\n";

/// Tells what the program is and waits for, if it was started without words and both its input and
/// its errors are a terminal.
pub fn greet<R: Env + AllocGlobal, I: IsTerminal, F: Write + IsTerminal>(
    rt: &R,
    input: &I,
    faults: &mut F,
) {
    if input.is_terminal() && faults.is_terminal() && is_without_words(rt) {
        let _ = faults.write_all(GREETING);
    }
}

/// Whether the command line has the program's name alone.
fn is_without_words<R: Env + AllocGlobal>(rt: &R) -> bool {
    match env::args(rt) {
        Ok(words) => words.count() < 2,
        Err(_) => false,
    }
}
