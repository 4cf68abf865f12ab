//! Pieces as bytes.
ghost use Rattle.std.specs.Prelude.{◌≡◌, ◌++◌, ◌<◌, ◌≤◌, ℕ, List, length, OnOk, OnErr};
ghost use Rattle.change_codec.specs.Writing.{Appends, HasRoom};
ghost use Rattle.piece_codec.specs.Spelling.{run_bytes, run_fields, spelled_piece, spelled_run};

use crate::fields::insert_of;
use crate::kind::run_byte;
use crate::text::put_text;
use change_codec::{put_byte, put_deps, put_id, put_op, put_origin, put_token, put_u32};
use op_model::{Op, head_length, place_length, token_length};
use op_pieces::Piece;
use std::alloc::AllocError;

/// Appends the record of a piece: that of an operation, or one of kind 5 for a run, 21 where it has
/// a token. Memory is reserved once, before anything is written; each byte is written once. An
/// error is out of memory (1), and leaves the bytes as they were.
pub fn put_piece(piece: &Piece, out: &mut Vec<u8>) -> Result<(), AllocError>
    ensures ok { OnOk result (out.new.items ≡ out.old.items ++ spelled_piece piece.now) }
    ensures err { OnErr result (out.new.items ≡ out.old.items) }
{
    let others = piece.others();
    if others.is_empty() {
        return put_op(piece.first(), out);
    }
    put_run(piece.first(), others, out)
}

/// How many bytes the record of a piece takes: at most 1,511. Constant.
pub fn piece_length(piece: &Piece) -> usize
    ensures value { result ≡ length (spelled_piece piece.now) }
    ensures within { result ≤ 1511 }
{
    let others = piece.others();
    if others.is_empty() {
        return piece.first().record_length() as usize;
    }
    4 + body_length(piece.first(), others.len())
}

fn put_run(first: &Op, others: &[char], out: &mut Vec<u8>) -> Result<(), AllocError>
    requires { length others.now < 256 }
    ensures ok { OnOk result (out.new.items ≡ out.old.items ++ spelled_run first.now others.now) }
    ensures err { OnErr result (out.new.items ≡ out.old.items) }
{
    let len = body_length(first, others.len());
    out.reserve(4 + len)?;
    put_u32(len as u32, out);
    put_run_bytes(first, others, out);
    Ok(())
}

/// How many bytes the body of a run's record has, where it has so many others behind the first one.
fn body_length(first: &Op, others: usize) -> usize
    requires { others < 256 }
    ensures value { (vs : List ℕ) → length vs ≡ others
        → result ≡ length (run_bytes first.now vs) }
    ensures within { result ≤ 1481 }
{
    let (origin, _) = insert_of(&first.body);
    let front = head_length(first.deps.len())
        + token_length(first.token.is_some())
        + place_length(origin.is_some());
    front as usize + 2 + 4 * others
}

#[tactic(auto, unfolding(crate::specs::Spelling::run_bytes))]
fn put_run_bytes(first: &Op, others: &[char], out: &mut Vec<u8>)
    requires few { length others.now < 256 }
    requires room { HasRoom out.old (run_bytes first.now others.now) }
    ensures { Appends out.old out.new (run_bytes first.now others.now) }
{
    put_byte(run_byte(first.token.is_some()), out);
    put_fields(first, others, out);
}

#[tactic(auto, unfolding(crate::specs::Spelling::run_fields))]
fn put_fields(first: &Op, others: &[char], out: &mut Vec<u8>)
    requires few { length others.now < 256 }
    requires room { HasRoom out.old (run_fields first.now others.now) }
    ensures { Appends out.old out.new (run_fields first.now others.now) }
{
    let (origin, value) = insert_of(&first.body);
    put_u32(first.doc, out);
    put_id(first.id, out);
    put_deps(&first.deps, out);
    put_token(first.token, out);
    put_origin(origin, out);
    put_text(value, others, out);
}
