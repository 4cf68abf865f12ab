//! A number of sixteen bytes that takes no more room beside smaller fields than its bytes.
ghost use Rattle.std.specs.Prelude.{◌≡◌, nat_eq};
ghost use Rattle.std.proofs.Common.{rules};
ghost use Rattle.std.specs.Cmp.Rules.{comparing, hashing};
ghost use Rattle.std.specs.Cmp.{partial_order_from_own_ties};
ghost use Rattle.std.specs.Hash as fed;
ghost use Rattle.std.specs.Ordering.{as_partial_cmp, nat_cmp};

use std::cmp::Ordering;
use std::hash::{Hash, Hasher};
use std::marker::Model;

/// One more than the greatest word.
const WORD: u128 = 1 << 64;

/// A number of sixteen bytes. Contracts see it as that number; that is also its order.
///
/// A `u128` begins at a multiple of sixteen, and so does all that holds one: an id of an operation
/// would take 32 bytes in place of 24.
#[derive(Clone, Copy, Debug)]
pub(crate) struct Words {
    high: u64,
    low: u64,
}

impl Model for Words {
    ghost use Rattle.std.specs.Prelude.{ℕ};

    ghost Value = { ℕ };

    ghost use Rattle.op_ids.specs.WordLaws.{words_of_number};
    ghost use Rattle.op_ids.specs.Words.{IsLow, number_of, words_of};

    ghost view = { number_of };

    ghost invariant = { IsLow };

    ghost inverse = { words_of };

    ghost inverse_ok = { words_of_number };
}

impl Words {
    /// The words of a number.
    pub(crate) fn new(number: u128) -> Words
        ensures { result ≡ number }
    {
        Words {
            high: (number / WORD) as u64,
            low: (number % WORD) as u64,
        }
    }

    /// The number.
    pub(crate) fn number(self) -> u128
        ensures { result ≡ self }
    {
        self.high as u128 * WORD + self.low as u128
    }
}

impl PartialEq for Words {
    ghost eq = { nat_eq };

    ghost laws = { Prim.search (comparing, rules) };

    fn eq(&self, other: &Words) -> bool {
        self.number() == other.number()
    }
}

impl Eq for Words {
    ghost laws = { Prim.search (comparing, rules) };
}

impl Ord for Words {
    ghost cmp = { nat_cmp };

    ghost total = { Prim.search (comparing, rules) };

    ghost matches_partial_cmp = { Prim.search (comparing, rules) };

    ghost matches_eq = { Prim.search (comparing, rules) };

    fn cmp(&self, other: &Words) -> Ordering {
        self.number().cmp(&other.number())
    }
}

impl PartialOrd for Words {
    ghost partial_cmp = { as_partial_cmp nat_cmp };

    ghost laws = { partial_order_from_own_ties (Prim.search (comparing, rules))
        (Prim.search (comparing, rules)) };

    fn partial_cmp(&self, other: &Words) -> Option<Ordering> {
        Some(self.cmp(other))
    }
}

impl Hash for Words {
    ghost hash_input = { fed.u128 };

    ghost respects_eq = { Prim.search (hashing, rules) };

    fn hash<H: Hasher>(&self, state: &mut H) {
        self.number().hash(state);
    }
}
