//! Which mark operation of a key decides.
ghost use Rattle.std.specs.Prelude.{◌≡◌, map};
ghost use Rattle.std.specs.Option.{option_copied};
ghost use Rattle.comment_marks.specs.Standing.{decided as decided_of, deciding as deciding_of};

use op_model::{Mark, MarkKey, Marking};

/// The mark for a key in a set of mark operations: of those of the key the one with the greatest id
/// adds it. Takes no memory. Linear in the set.
pub fn decided<'a>(set: &[&'a Marking], key: &MarkKey) -> Option<&'a Mark>
    ensures { option_copied result ≡ decided_of (map (λ m. m.now) set.now) key.now }
{
    match deciding(set, key) {
        Some(marking) => marking.mark.as_ref(),
        None => None,
    }
}

/// Of the mark operations of a key the one with the greatest id.
fn deciding<'a>(set: &[&'a Marking], key: &MarkKey) -> Option<&'a Marking>
    ensures { option_copied result ≡ deciding_of (map (λ m. m.now) set.now) key.now }
{
    let mut best = None;
    let mut i = set.len();
    while i > 0 {
        i -= 1;
        let marking = set[i];
        if marking.key.is_same(key) {
            best = Some(marking.greater(best));
        }
    }
    best
}
