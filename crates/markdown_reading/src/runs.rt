//! Runs of stars and underscores.
use crate::characters::{is_sign, is_wide_space};

/// A run of stars or underscores: what it may do, and what it did.
#[derive(Clone, Copy, PartialEq, Eq)]
pub(crate) struct Run {
    pub mark: char,
    /// How long it is.
    pub length: usize,
    pub can_open: bool,
    pub can_close: bool,
    /// How many characters of it are shown.
    pub left: usize,
    /// How often it ends emphasis, and strong text.
    pub em_ends: usize,
    pub strong_ends: usize,
    /// How often it begins emphasis, and strong text, after those ends.
    pub em_begins: usize,
    pub strong_begins: usize,
}

impl Run {
    /// A run between two characters; the ends of a paragraph count as spaces.
    pub(crate) fn new(mark: char, length: usize, before: Option<char>, next: Option<char>) -> Run {
        let before = before.unwrap_or('\n');
        let next = next.unwrap_or('\n');
        let (after_space, before_space) = (is_wide_space(before), is_wide_space(next));
        let (after_sign, before_sign) = (is_sign(before), is_sign(next));
        let is_left = !before_space && (!before_sign || after_space || after_sign);
        let is_right = !after_space && (!after_sign || before_space || before_sign);
        let is_star = mark == '*';
        Run {
            mark,
            length,
            can_open: is_left && (is_star || !is_right || after_sign),
            can_close: is_right && (is_star || !is_left || before_sign),
            left: length,
            em_ends: 0,
            strong_ends: 0,
            em_begins: 0,
            strong_begins: 0,
        }
    }

    /// Whether this run may begin what another one ends.
    pub(crate) fn may_pair(&self, end: &Run) -> bool {
        if self.mark != end.mark || self.left == 0 {
            return false;
        }
        if !self.can_close && !end.can_open {
            return true;
        }
        end.length % 3 == 0 || (self.length % 3 + end.length % 3) % 3 != 0
    }

    /// Whether another run that ends text pairs with the same runs as this one.
    pub(crate) fn sort(&self) -> usize {
        let by_mark = if self.mark == '*' { 0 } else { 6 };
        let by_side = if self.can_open { 3 } else { 0 };
        by_mark + by_side + self.length % 3
    }

    /// Begins emphasis, or strong text.
    pub(crate) fn begin(&mut self, is_strong: bool) {
        if is_strong {
            self.left = self.left.saturating_sub(2);
            self.strong_begins = self.strong_begins.saturating_add(1);
        } else {
            self.left = self.left.saturating_sub(1);
            self.em_begins = self.em_begins.saturating_add(1);
        }
    }

    /// Ends emphasis, or strong text.
    pub(crate) fn end(&mut self, is_strong: bool) {
        if is_strong {
            self.left = self.left.saturating_sub(2);
            self.strong_ends = self.strong_ends.saturating_add(1);
        } else {
            self.left = self.left.saturating_sub(1);
            self.em_ends = self.em_ends.saturating_add(1);
        }
    }
}
