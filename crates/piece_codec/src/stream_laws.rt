//! Laws of streams of pieces: calls that do nothing, and whose contracts are the laws.
ghost use Rattle.std.specs.Prelude.{◌≡◌, ◌++◌, ◌<◌, ◌≤◌, ℕ, List, [], length, true};
ghost use Rattle.op_model.specs.declared.op.Op.{Op as Operation};
ghost use Rattle.op_model.specs.Records.{stream_length};
ghost use Rattle.op_pieces.specs.Cutting.{cut};
ghost use Rattle.op_pieces.specs.Pieces.{ops_of, Run};
ghost use Rattle.change_codec.specs.declared.format.Format.{Format as StreamFormat};
ghost use Rattle.change_codec.specs.declared.format.Format.TheVariants.{First, Second, Third};
ghost use Rattle.change_codec.specs.Formats.{AreOf};
ghost use Rattle.change_codec.specs.Stream.{spelled_all, AreOperations};
ghost use Rattle.piece_codec.specs.Fits.{IsWhole};
ghost use Rattle.piece_codec.specs.Formats.{has_runs, IsPieceOf};
ghost use Rattle.piece_codec.specs.Record.{BeginsWithPiece};
ghost use Rattle.piece_codec.specs.Spelling.{spelled_piece};
ghost use Rattle.piece_codec.specs.Stream.{spelled_pieces, SpellsList};

/// A stream spells at most one list of operations, in whatever formats it is read.
pub fn a_stream_spells_at_most_one_list()
    ensures { (f g : StreamFormat) (a b : List Operation) (bytes : List ℕ)
        → SpellsList f a bytes → SpellsList g b bytes → a ≡ b }
{}

/// A stream of a format is one of each later format, and spells the same list there.
pub fn a_stream_of_an_earlier_format_is_one_of_a_later()
    ensures second { (ops : List Operation) (bytes : List ℕ)
        → SpellsList First ops bytes → SpellsList Second ops bytes }
    ensures third { (ops : List Operation) (bytes : List ℕ)
        → SpellsList Second ops bytes → SpellsList Third ops bytes }
{}

/// No bytes spell no operations.
pub fn nothing_spells_nothing()
    ensures { (f : StreamFormat) → SpellsList f [] [] }
{}

/// The record of a piece spells its operations, in each format that has the piece.
pub fn a_piece_spells_its_operations()
    ensures { (f : StreamFormat) (p : Run) → IsPieceOf f p → IsWhole p
        → SpellsList f (ops_of p) (spelled_piece p) }
{}

/// A stream behind another one spells its list behind the other's.
pub fn streams_join()
    ensures { (f : StreamFormat) (a b : List Operation) (x y : List ℕ)
        → SpellsList f a x → SpellsList f b y → SpellsList f (a ++ b) (x ++ y) }
{}

/// A stream is no longer than the records of its operations, which limits count.
pub fn a_stream_is_no_longer()
    ensures { (f : StreamFormat) (ops : List Operation) (bytes : List ℕ)
        → SpellsList f ops bytes → length bytes ≤ stream_length ops }
{}

/// The records of single operations are a stream: so is every one that was written before runs.
pub fn single_records_are_a_stream()
    ensures { (f : StreamFormat) (ops : List Operation) → AreOperations ops → AreOf f ops
        → SpellsList f ops (spelled_all ops) }
{}

/// What a stream spells are operations of its format, and each of them keeps its rules.
pub fn a_stream_spells_operations_of_its_format()
    ensures { (f : StreamFormat) (ops : List Operation) (bytes : List ℕ)
        → SpellsList f ops bytes → AreOperations ops × AreOf f ops }
{}

/// The records of the pieces that operations are cut into spell just these operations, in a format
/// that has runs.
pub fn what_is_cut_spells_the_operations()
    ensures { (f : StreamFormat) (ops : List Operation) → has_runs f ≡ true
        → AreOperations ops → AreOf f ops → SpellsList f ops (spelled_pieces (cut ops)) }
{}

/// A stream that begins with another one goes on with a third, which spells the operations behind
/// those of the other.
pub fn a_stream_goes_on_as_a_stream()
    ensures { (f : StreamFormat) (a all : List Operation) (x y : List ℕ)
        → SpellsList f a x → SpellsList f all (x ++ y)
        → (b : List Operation) × SpellsList f b y × (all ≡ a ++ b) }
{}

/// Some bytes that begin with no piece of the format are no stream of it.
pub fn bytes_without_a_piece_are_no_stream()
    ensures { (f : StreamFormat) (bytes : List ℕ) → 0 < length bytes
        → ((p : Run) (n : ℕ) → IsPieceOf f p → BeginsWithPiece bytes p n → ⊥)
        → (ops : List Operation) → SpellsList f ops bytes → ⊥ }
{}
