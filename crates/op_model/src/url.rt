//! Where a link leads.
ghost use Rattle.std.specs.Prelude.{◌≡◌, ℕ, List, ◌≤◌, ◌<◌, IfOk, IfSome, IsSome, ◌↔◌, length, string_bytes, string_len};
ghost use Rattle.std.specs.Prelude.{◌==◌};
ghost use Rattle.std.proofs.Common.{rules};
ghost use Rattle.std.specs.Cmp.Rules.{comparing};
ghost use lib.Pointwise.{pointwise};

use fixed_numbers::limits::MAX_URL_LENGTH;
use std::alloc::AllocError;
use std::marker::Model;

/// Where a link leads: a text of 1 to 1,024 bytes. Contracts see its bytes, in UTF-8.
#[derive(Debug, Drop)]
pub struct Url {
    text: String,
}

impl Model for Url {
    ghost use Rattle.std.specs.Prelude.{ℕ, List, ◌≤◌, ◌<◌, string_bytes, string_len};
    ghost use Rattle.fixed_numbers.specs.declared.limits.TheConstants.{MAX_URL_LENGTH};

    ghost Value = { List ℕ };

    ghost view = { λ u. string_bytes u.text };

    ghost invariant = { λ u. (0 < string_len u.text) × (string_len u.text ≤ MAX_URL_LENGTH) };
}

impl PartialEq for Url {
    ghost eq = { pointwise ◌==◌ };

    ghost laws = { Prim.search (comparing, rules) };

    fn eq(&self, other: &Url) -> bool {
        self.text == other.text
    }
}

impl Eq for Url {
    ghost laws = { Prim.search (comparing, rules) };
}

impl Url {
    /// The URL with this text, or `None` where that has no bytes or more than 1,024. Takes no
    /// memory.
    pub fn new(text: String) -> Option<Url>
        ensures some { IsSome result
            ↔ ((0 < string_len text) × (string_len text ≤ MAX_URL_LENGTH)) }
        ensures same { IfSome result (λ url. url ≡ string_bytes text) }
    {
        if text.is_empty() || text.len() > MAX_URL_LENGTH {
            return None;
        }
        Some(Url { text })
    }

    /// The text.
    pub fn as_str(&self) -> &str
        ensures bytes { result.now ≡ self.now }
        ensures some { 0 < length self.now }
        ensures within { length self.now ≤ MAX_URL_LENGTH }
    {
        self.text.as_str()
    }

    /// The same URL again. An error is out of memory (1).
    pub fn copy(&self) -> Result<Url, AllocError>
        ensures { IfOk result (λ copied. copied ≡ self.now) }
    {
        Ok(Url {
            text: self.text.clone()?,
        })
    }
}
