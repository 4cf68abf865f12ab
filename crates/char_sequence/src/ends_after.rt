//! What an insert has to know of marks, told by whoever keeps them.
ghost use Rattle.std.specs.Prelude.{◌≡◌, Bool};
ghost use Rattle.std.specs.List.{list_any};
ghost use Rattle.op_ids.specs.Id.{is_same, Id};

use op_ids::OpId;

/// What an insert has to know of the mark operations of its document: the characters that some of
/// them end just after.
pub trait EndsAfter {
    /// Some mark operation ends just after the character of this id.
    ghost ends_after: { Self → Id → Bool };

    /// Whether some mark operation ends just after this character.
    fn ends_after(&self, id: OpId) -> bool
        ensures { result ≡ ends_after self.now id };

    /// All characters that some mark operation ends just after, in any order.
    fn ended(&self) -> &[OpId]
        ensures { (id : Id) → ends_after self.now id ≡ list_any (λ e. is_same e id) result.now };
}
