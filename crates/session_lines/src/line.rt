//! A line becomes a command.
ghost use Rattle.std.specs.Prelude.{◌≡◌, ◌≢◌, IfOk, IfErr, Ok, Err};
ghost use Rattle.serde_json.specs.View.{view};
ghost use Rattle.session_lines.specs.declared.refusal.Refusal.TheVariants.{Memory};
ghost use Rattle.session_lines.specs.Requests.{reading, or_syntax, answer_to};

use crate::command::Command;
use crate::refusal::Refusal;
use crate::request::request;
use serde_json::Value;
use std::alloc::Global;

/// What a line without its line feed asks for. `Syntax` (2) where the line isn't read as JSON in
/// UTF-8, `Request` (3) where it is no object with the name of a request as its `op`,
/// `Field` (4) where a field is missing, unknown or breaks its rule; the first of these is given.
/// `Memory` (1) where a growth was refused. The time is that of reading the line.
pub fn read_command(alloc: Global, line: &[u8]) -> Result<Command, Refusal>
    ensures ok { IfOk result (λ command. answer_to line.now ≡ Ok command) }
    ensures err { IfErr result (λ refusal. refusal ≢ Memory → answer_to line.now ≡ Err refusal) }
{
    let value = read(alloc, line)?;
    request(alloc, &value)
}

/// The JSON value that a line is.
pub(crate) fn read(alloc: Global, line: &[u8]) -> Result<Value, Refusal>
    ensures ok { IfOk result (λ value. or_syntax (reading line.now) ≡ Ok (view value)) }
    ensures err { IfErr result (λ refusal. refusal ≢ Memory
        → or_syntax (reading line.now) ≡ Err refusal) }
{
    match Value::from_slice(alloc, line) {
        Ok(value) => Ok(value),
        Err(error) if error.is_memory() => Err(Refusal::Memory),
        Err(_) => Err(Refusal::Syntax),
    }
}
