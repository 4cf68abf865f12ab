//! Laws of the codec: calls that do nothing, and whose contracts are the laws.
ghost use Rattle.std.specs.Prelude.{◌≡◌, ◌+◌, ◌*◌, ◌++◌, ◌<◌, ◌≤◌, ℕ, List, length, slice_index, Ok, Some, true};
ghost use Rattle.change_codec.specs.declared.format.Format.{Format as StreamFormat};
ghost use Rattle.op_model.specs.Records.{record_length, stream_length};
ghost use Rattle.op_pieces.specs.Pieces.{is_piece, ops_of, Run};
ghost use Rattle.piece_codec.specs.Fits.{IsWhole};
ghost use Rattle.piece_codec.specs.Formats.{IsPieceOf};
ghost use Rattle.piece_codec.specs.Record.{taken_piece, BeginsWithPiece};
ghost use Rattle.piece_codec.specs.Spelling.{spelled_piece};

/// What is spelled is read in each format that has it, whatever follows it.
pub fn spelled_is_read()
    ensures { (f : StreamFormat) (p : Run) (rest : List ℕ) → IsPieceOf f p → IsWhole p
        → taken_piece f (spelled_piece p ++ rest) ≡ Ok (Some (p, length (spelled_piece p))) }
{}

/// What is read in a format is spelled so, and the format has it.
pub fn read_is_spelled()
    ensures { (f : StreamFormat) (bytes : List ℕ) (p : Run) (n : ℕ)
        → ((i : ℕ) → slice_index bytes i < 256)
        → taken_piece f bytes ≡ Ok (Some (p, n)) → IsPieceOf f p × BeginsWithPiece bytes p n }
{}

/// No spelling begins another one.
pub fn no_spelling_begins_another()
    ensures { (a b : Run) (x y : List ℕ) → IsWhole a → IsWhole b
        → spelled_piece a ++ x ≡ spelled_piece b ++ y → (a ≡ b) × (x ≡ y) }
{}

/// The record of a piece is no longer than those of its operations, which limits count.
pub fn a_piece_is_no_longer()
    ensures { (p : Run) → is_piece p ≡ true → length (spelled_piece p) ≤ stream_length (ops_of p) }
{}

/// The record of a run takes two bytes more than that of its first operation alone, and four for
/// each other character.
pub fn a_run_has_its_length()
    ensures { (p : Run) → is_piece p ≡ true → 0 < length p.others
        → length (spelled_piece p) ≡ record_length p.first + 2 + 4 * length p.others }
{}

/// The single records of a piece's operations take at most 83 times the bytes of its record.
pub fn a_piece_stands_for_83_times_its_bytes()
    ensures { (p : Run) → IsWhole p → stream_length (ops_of p) ≤ 83 * length (spelled_piece p) }
{}
