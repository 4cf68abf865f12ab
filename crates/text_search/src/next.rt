//! What is known after one more character.
ghost use Rattle.std.specs.Prelude.{◌≡◌, ◌≤◌, ◌+◌, ◌∷◌, [], ◌++◌, List, ℕ, length};
ghost use Rattle.text_search.specs.Ends.{AreBorders, fits, IsLongest};

use op_model::Ticks;

/// How many characters of the beginning of `sought` stand at the end of a text that gets one more
/// character, where `count` stood at its end before: the most. `borders` are those of the
/// beginnings of `sought`, up to this one.
pub(crate) fn next(
    sought: &[char],
    borders: &[usize],
    count: usize,
    character: char,
    ticks: &mut Ticks,
) -> usize
    requires borders { AreBorders sought.now borders.now }
    requires known { count ≤ length borders.now }
    ensures longest { (read : List ℕ) → IsLongest sought.now read count
        → IsLongest sought.now (read ++ character ∷ []) result }
    ensures ticks { ticks.new + result ≤ ticks.old + count + 2 }
{
    let mut k = count;
    ticks.tick();
    while k > 0 && !fits(sought, k, character) {
        ticks.tick();
        k = borders[k - 1];
    }
    if fits(sought, k, character) { k + 1 } else { 0 }
}

/// Whether this character follows the first `count` ones.
fn fits(sought: &[char], count: usize, character: char) -> bool
    ensures { result ≡ fits sought.now count character }
{
    count < sought.len() && sought[count] == character
}
