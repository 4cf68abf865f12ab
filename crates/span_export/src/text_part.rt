//! A part of a text.
ghost use Rattle.std.specs.Prelude.{◌≡◌, ◌≤◌, length, take, drop};

/// The characters from one place up to another.
pub(crate) fn between(text: &[char], start: usize, end: usize) -> &[char]
    requires ordered { start ≤ end }
    requires within { end ≤ length text.now }
    ensures { result.now ≡ drop start (take end text.now) }
{
    let (before, _) = text.split_at(end);
    let (_, part) = before.split_at(start);
    part
}
