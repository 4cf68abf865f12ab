//! What a change needs of a text, and of a store at the most.
ghost use Rattle.std.specs.Prelude.{◌≡◌, ◌+◌, ◌≤◌, ◌<◌, ◌^◌, ℕ, Option, true};
ghost use Rattle.op_model.specs.Actions.{head_at_most, length_after as length_after_of};
ghost use Rattle.op_model.specs.Actions.{stream_at_most as stream_of, waits_at_most as waits_of};
ghost use Rattle.op_model.specs.Made.{is_inside as is_inside_of, is_small, size_of};

use crate::edit::Change;
use crate::lengths::{ID_LENGTH, insert_length, place_length};

impl Change {
    /// Whether the change lies within a text of `count` characters. Constant.
    pub fn is_inside(&self, count: usize) -> bool
        ensures { result ≡ is_inside_of count self.now }
    {
        match self {
            Change::Insert { at, .. } => *at as usize <= count,
            Change::Delete { at, count: gone } => *at as usize + gone.get() as usize <= count,
            Change::Mark { from, to, .. } => *from < *to && *to as usize <= count,
            Change::Unmark { from, to, .. } => *from < *to && *to as usize <= count,
        }
    }

    /// How many characters a text of `count` has after the change. Constant.
    pub fn length_after(&self, count: usize) -> usize
        requires { count + size_of self.now < 2 ^ 64 }
        ensures { result ≡ length_after_of count self.now }
    {
        match self {
            Change::Insert { text, .. } => count + text.as_slice().len(),
            Change::Delete { count: gone, .. } => count.saturating_sub(gone.get() as usize),
            Change::Mark { .. } | Change::Unmark { .. } => count,
        }
    }

    /// The most bytes that its records take, each by itself, where the head and the token of one
    /// take `head` bytes at most. Constant.
    pub fn stream_at_most(&self, head: u64) -> u64
        requires small { is_small self.now ≡ true }
        requires head { head ≤ 1000 }
        ensures { (replicas : ℕ) (token : Option ℕ) → head ≡ head_at_most replicas token
            → result ≡ stream_of replicas token self.now }
    {
        match self {
            Change::Insert { text, .. } => text.as_slice().len() as u64
                * (head + insert_length(true)),
            Change::Delete { count, .. } => count.get() as u64 * (head + ID_LENGTH),
            Change::Mark { mark, .. } => head + mark.record_length() + 2 * place_length(true),
            Change::Unmark { key, .. } => head + key.record_length() + 2 * place_length(true),
        }
    }

    /// The most bytes that it adds to what waits for a commit. Constant.
    pub fn waits_at_most(&self, head: u64) -> u64
        requires small { is_small self.now ≡ true }
        requires head { head ≤ 1000 }
        ensures { (replicas : ℕ) (token : Option ℕ) → head ≡ head_at_most replicas token
            → result ≡ waits_of replicas token self.now }
    {
        match self {
            Change::Insert { text, .. } => head + 27 + 4 * text.as_slice().len() as u64,
            Change::Delete { .. } => self.stream_at_most(head),
            Change::Mark { .. } => self.stream_at_most(head),
            Change::Unmark { .. } => self.stream_at_most(head),
        }
    }
}
