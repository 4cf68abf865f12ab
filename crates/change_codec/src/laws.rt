//! Laws of the codec: calls that do nothing, and whose contracts are the laws.
ghost use Rattle.std.specs.Prelude.{◌≡◌, ◌++◌, ◌<◌, ℕ, List, length, take, slice_index, Ok, Some};
ghost use Rattle.op_model.specs.Records.{record_length, stream_length};
ghost use Rattle.op_model.specs.declared.op.Op.{Op as Operation};
ghost use Rattle.change_codec.specs.Spelling.{spelled};
ghost use Rattle.change_codec.specs.declared.format.Format.{Format as StreamFormat};
ghost use Rattle.change_codec.specs.Fits.{IsOperation};
ghost use Rattle.change_codec.specs.Formats.{IsOf};
ghost use Rattle.change_codec.specs.Record.{taken, BeginsWithOp};
ghost use Rattle.change_codec.specs.Stream.{spelled_all, AreOperations};

/// Each value has one spelling: what is read as the same operation is the same bytes.
pub fn each_has_one_spelling()
    ensures { (op : Operation) (bytes others : List ℕ) (n m : ℕ)
        → BeginsWithOp bytes op n → BeginsWithOp others op m → take n bytes ≡ take m others }
{}

/// No spelling begins another one.
pub fn no_spelling_begins_another()
    ensures { (a b : Operation) (x y : List ℕ) → IsOperation a → IsOperation b
        → spelled a ++ x ≡ spelled b ++ y → (a ≡ b) × (x ≡ y) }
{}

/// What is spelled is read in each format that has it, whatever follows it.
pub fn spelled_is_read()
    ensures { (f : StreamFormat) (op : Operation) (rest : List ℕ) → IsOf f op → IsOperation op
        → taken f (spelled op ++ rest) ≡ Ok (Some (op, length (spelled op))) }
{}

/// What is read in a format is spelled so, and the format has it.
pub fn read_is_spelled()
    ensures { (f : StreamFormat) (bytes : List ℕ) (op : Operation) (n : ℕ)
        → ((i : ℕ) → slice_index bytes i < 256)
        → taken f bytes ≡ Ok (Some (op, n)) → IsOf f op × BeginsWithOp bytes op n }
{}

/// A spelling is as long as the limit on a store's stream counts it.
pub fn spelled_length()
    ensures { (op : Operation) → length (spelled op) ≡ record_length op }
{}

/// The records of a list, one after another, are those of no other list.
pub fn a_stream_determines_its_operations()
    ensures { (a b : List Operation) → AreOperations a → AreOperations b
        → spelled_all a ≡ spelled_all b → a ≡ b }
{}

/// Behind the records of one list stand those of another, where both lists are one behind the
/// other.
pub fn streams_join()
    ensures { (a b : List Operation) → spelled_all (a ++ b) ≡ spelled_all a ++ spelled_all b }
{}

/// The records of a list are as long as the limit on a store's stream counts them.
pub fn a_stream_has_its_length()
    ensures { (ops : List Operation) → length (spelled_all ops) ≡ stream_length ops }
{}
