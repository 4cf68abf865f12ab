//! A text.
ghost use Rattle.std.specs.Prelude.{◌≡◌, ℕ, ◌≤◌, ◌==◌, List, ◌∷◌, ◌++◌, length, take, drop, IfOk, OnOk, OnErr};
ghost use Rattle.std.proofs.Common.{rules};
ghost use Rattle.std.specs.Cmp.Rules.{comparing};
ghost use lib.Pointwise.{pointwise};

use std::alloc::AllocError;
use std::marker::Model;

/// A text: a list of characters (Unicode scalar values), which may be empty. Contracts see the list
/// of their codes.
#[derive(Debug, Drop)]
pub struct Text {
    characters: Vec<char>,
}

impl Model for Text {
    ghost Value = { List ℕ };

    ghost view = { λ t. t.characters.items };
}

impl From<Vec<char>> for Text {
    ghost from_gives = { λ characters result. result ≡ characters.items };

    fn from(characters: Vec<char>) -> Text {
        Text { characters }
    }
}

impl PartialEq for Text {
    ghost eq = { pointwise ◌==◌ };

    ghost laws = { Prim.search (comparing, rules) };

    fn eq(&self, other: &Text) -> bool {
        self.characters == other.characters
    }
}

impl Eq for Text {
    ghost laws = { Prim.search (comparing, rules) };
}

impl Text {
    /// The characters, in order.
    pub fn as_slice(&self) -> &[char]
        ensures { result.now ≡ self.now }
    {
        &self.characters
    }

    /// Puts a character before the one at a place, or at the end. An error is out of memory (1),
    /// and leaves the text as it was.
    pub fn insert(&mut self, at: usize, character: char) -> Result<(), AllocError>
        requires { at ≤ length self.old }
        ensures ok { OnOk result (self.new ≡ take at self.old ++ character ∷ drop at self.old) }
        ensures err { OnErr result (self.new ≡ self.old) }
    {
        self.characters.insert(at, character)?;
        Ok(())
    }

    /// The same text again. An error is out of memory (1).
    pub fn copy(&self) -> Result<Text, AllocError>
        ensures { IfOk result (λ copied. copied ≡ self.now) }
    {
        Ok(Text {
            characters: self.characters.clone()?,
        })
    }
}
