//! Whether an answer is a refusal.
ghost use Rattle.std.specs.Prelude.{◌≡◌, IfOk};
ghost use Rattle.serde_json.specs.View.{view};
ghost use Rattle.daemon_asking.specs.Judging.{is_given, says_ok};

use serde_json::Value;
use std::alloc::{AllocError, Global};

/// Whether a line, with its line feed or without it, is a JSON object whose `ok` is `true`. An
/// error is out of memory (1). The time is that of reading the line.
pub fn is_ok(alloc: Global, line: &[u8]) -> Result<bool, AllocError>
    ensures { IfOk result (λ ok. ok ≡ says_ok line.now) }
{
    match Value::from_slice(alloc, line) {
        Ok(answer) => Ok(is_given(&answer)),
        Err(error) if error.is_memory() => Err(AllocError),
        Err(_) => Ok(false),
    }
}

/// Whether a value is an object whose `ok` is `true`.
fn is_given(answer: &Value) -> bool
    ensures { result ≡ is_given (view answer.now) }
{
    answer.get("ok").and_then(Value::as_bool).unwrap_or(false)
}
