//! The line that a session is reading.
ghost use Rattle.std.specs.Prelude.{◌≡◌, ◌≤◌, List, [], ℕ, Option, Some, None, IfOk};
ghost use Rattle.std.specs.Prelude.{option_copied, vec_len, vec_capacity, if◌then◌else◌};
ghost use Rattle.session_threads.specs.Held.{longer};

use fixed_numbers::limits::MAX_LINE;
use std::alloc::{AllocError, Global};
use std::marker::Model;

/// What is there of a line, or that it is too long. Its memory is taken when it is made, so a line
/// grows without.
#[derive(Drop)]
pub struct HeldLine {
    bytes: Vec<u8>,
    is_too_long: bool,
}

impl Model for HeldLine {
    ghost use Rattle.std.specs.Prelude.{ℕ, List, Option, Some, None, ◌≤◌, if◌then◌else◌};
    ghost use Rattle.std.specs.Prelude.{vec_len, vec_capacity};
    ghost use Rattle.fixed_numbers.specs.declared.limits.TheConstants.{MAX_LINE};

    ghost Value = { Option (List ℕ) };

    ghost view = { λ line. if line.is_too_long then None else Some line.bytes.items };

    ghost invariant = { λ line. (vec_len line.bytes ≤ MAX_LINE)
        × (MAX_LINE ≤ vec_capacity line.bytes) };
}

impl HeldLine {
    /// An empty line.
    pub(crate) fn new(alloc: Global) -> Result<HeldLine, AllocError>
        ensures { IfOk result (λ line. line ≡ Some []) }
    {
        let bytes = Vec::with_capacity(alloc, MAX_LINE)?;
        Ok(HeldLine {
            bytes,
            is_too_long: false,
        })
    }

    /// The bytes that are there, or none where the line is too long.
    pub(crate) fn as_slice(&self) -> Option<&[u8]>
        ensures { option_copied result ≡ self.now }
    {
        if self.is_too_long {
            return None;
        }
        Some(self.bytes.as_slice())
    }

    /// Puts bytes behind what is there.
    pub(crate) fn push(&mut self, bytes: &[u8])
        ensures { self.new ≡ longer self.old bytes.now }
    {
        if self.bytes.len() + bytes.len() > MAX_LINE {
            self.is_too_long = true;
        }
        if !self.is_too_long {
            let _ = self.bytes.extend_from_slice(bytes);
        }
    }

    /// Begins another line.
    pub(crate) fn clear(&mut self)
        ensures { self.new ≡ Some [] }
    {
        self.bytes.clear();
        self.is_too_long = false;
    }
}
