//! Laws of ids and clocks: calls that do nothing, and whose contracts are the laws.
ghost use Rattle.std.specs.Prelude.{◌≡◌, ◌≢◌, ℕ, ◌+◌, ◌^◌, ◌<◌, ◌⊎◌, ◌↔◌, IsTrue, true, false};
ghost use Rattle.std.specs.Int.{w128, from_be_bytes, to_be_bytes};
ghost use Rattle.fixed_numbers.specs.declared.limits.TheConstants.{MAX_COUNT};
ghost use Rattle.op_ids.specs.Id.{is_below, is_same};
ghost use Rattle.op_ids.specs.Clock.{count_of, advanced, is_rising_above};

use crate::{Clock, OpId, ReplicaId, Token};

/// No id is below itself.
pub fn below_is_irreflexive(a: OpId)
    ensures { is_below a a ≡ false }
{}

/// What is below an id that is below a third is below the third.
pub fn below_is_transitive(a: OpId, b: OpId, c: OpId)
    ensures { IsTrue (is_below a b) → IsTrue (is_below b c) → IsTrue (is_below a c) }
{}

/// Of two ids one is below the other, or they are the same.
pub fn below_is_total(a: OpId, b: OpId)
    ensures { IsTrue (is_below a b) ⊎ (a ≡ b) ⊎ IsTrue (is_below b a) }
{}

/// The test of two ids says whether they are the same.
pub fn same_is_exact(a: OpId, b: OpId)
    ensures { IsTrue (is_same a b) ↔ (a ≡ b) }
{}

/// The number of a replica isn't 0.
pub fn replica_is_not_nil(replica: ReplicaId)
    ensures { 0 < replica }
{}

/// The number of a token isn't 0, and has sixteen bytes.
pub fn token_is_not_nil(token: Token)
    ensures above_zero { 0 < token }
    ensures sixteen { token < 2 ^ 128 }
{}

/// Any sixteen bytes are those of the number that they are read as.
pub fn bytes_undo_read(bytes: [u8; 16])
    ensures { to_be_bytes w128 (from_be_bytes w128 bytes) ≡ bytes }
{}

/// Reading the bytes of a replica gives the replica.
pub fn read_undoes_bytes(replica: ReplicaId)
    ensures { from_be_bytes w128 (to_be_bytes w128 replica) ≡ replica }
{}

/// One more operation of a replica raises its count by one.
pub fn advanced_adds_one(clock: &Clock, replica: ReplicaId)
    ensures { count_of (advanced clock.now replica) replica ≡ count_of clock.now replica + 1 }
{
    let _ = clock.entries();
}

/// One more operation of a replica changes the count of no other.
pub fn advanced_keeps_others(clock: &Clock, replica: ReplicaId)
    ensures { (other : ℕ) → other ≢ replica
        → count_of (advanced clock.now replica) other ≡ count_of clock.now other }
{}

/// One more operation of a replica leaves the entries in rising order, up to 2^24 operations.
pub fn advanced_rises(clock: &Clock, replica: ReplicaId)
    requires { count_of clock.now replica < MAX_COUNT }
    ensures { is_rising_above 0 (advanced clock.now replica) ≡ true }
{
    let _ = clock.entries();
}

/// Two clocks with the same count of every replica are the same.
pub fn counts_determine(a: &Clock, b: &Clock)
    ensures { ((replica : ℕ) → count_of a.now replica ≡ count_of b.now replica)
        → a.now ≡ b.now }
{
    let _ = a.entries();
    let _ = b.entries();
}
