//! A cell in twelve bytes.
ghost use Rattle.std.specs.Prelude.{◌≡◌, ◌≢◌, ◌<◌, ◌≤◌, ◌%◌, false, ℕ, List};
ghost use Rattle.std.proofs.Common.{get_or};
ghost use Rattle.fixed_numbers.specs.declared.limits.TheConstants.{MAX_COUNTER};
ghost use Rattle.char_sequence.specs.Packed.{counter_of, unpacked};

use crate::cell::Cell;

/// One more than the greatest number of 32 bits.
const WORD: u64 = 4_294_967_296;

/// A cell in twelve bytes: in place of the replica of its id it says which of some replicas that
/// is.
#[derive(Clone, Copy, Debug)]
pub struct PackedCell {
    /// The low 32 bits of the counter.
    pub low: u32,
    pub value: char,
    /// The high 16 bits of the counter.
    pub high: u16,
    pub maker: u8,
    pub is_removed: bool,
}

impl PackedCell {
    /// A cell of which it is known where its replica stands among some.
    pub(crate) fn new(cell: &Cell, maker: u8) -> PackedCell
        ensures maker { result.maker ≡ maker }
        ensures counter { 0 < counter_of result }
        ensures cell { (makers : List ℕ) → get_or makers maker 0 ≡ cell.now.id.replica
            → unpacked makers result ≡ cell.now }
    {
        let counter = cell.id.counter();
        PackedCell {
            low: low(counter),
            value: cell.value,
            high: (counter / WORD) as u16,
            maker,
            is_removed: cell.is_removed,
        }
    }

    /// The counter of its id.
    pub(crate) fn counter(&self) -> u64
        ensures counter { result ≡ counter_of self.now }
        ensures in_range { result ≤ MAX_COUNTER }
    {
        self.high as u64 * WORD + self.low as u64
    }

    /// Whether its id may have this counter: the low 32 bits are equal.
    pub(crate) fn may_have(&self, counter: u64) -> bool
        ensures { result ≡ false → counter_of self.now ≢ counter }
    {
        self.low == low(counter)
    }
}

/// The low 32 bits of a counter.
fn low(counter: u64) -> u32
    ensures { result ≡ counter % WORD }
{
    (counter % WORD) as u32
}
