//! Tombstones that are passed, by whole chunks where they can be.
ghost use Rattle.std.specs.Prelude.{◌<◌, IfSome};
ghost use Rattle.char_sequence.specs.Chunks.{IsPlace};
ghost use Rattle.char_sequence.specs.Reading.{Hides, HidesUpTo};

use crate::chunks::Chunks;
use crate::groups::GROUP;
use crate::place::Place;
use crate::reading::next;
use op_model::Ticks;

/// A place behind tombstones that follow a place: past its chunk, if no reader sees a cell from
/// there on, and past the next ones that show nothing. A step for each of these chunks, but for
/// whole 64 chunks one step.
pub(crate) fn past_hidden(chunks: &Chunks, from: &Place) -> Place
    requires { IsPlace chunks.now from.now.chunk from.now.at }
    ensures { Hides chunks.now from.now result }
{
    let mut at = *from;
    while let Some(next) = next_place(chunks, &at) {
        at = next;
    }
    at
}

/// Where chunks begin behind a place, if they do, and from there up to them nothing is shown: past
/// 64 chunks or one. Constant.
fn next_place(chunks: &Chunks, at: &Place) -> Option<Place>
    requires { IsPlace chunks.now at.now.chunk at.now.at }
    ensures hidden { IfSome result (Hides chunks.now at.now) }
    ensures next { IfSome result (λ next. at.now.chunk < next.chunk) }
{
    match next_group(chunks, at) {
        Some(next) => Some(next),
        None => next_chunk(chunks, at),
    }
}

/// Where the next 64 chunks begin, if they do, and a place is the beginning of 64 chunks that show
/// nothing. Constant.
fn next_group(chunks: &Chunks, at: &Place) -> Option<Place>
    requires { IsPlace chunks.now at.now.chunk at.now.at }
    ensures hidden { IfSome result (Hides chunks.now at.now) }
    ensures next { IfSome result (λ next. at.now.chunk < next.chunk) }
{
    chunks.are_sized();
    let g = at.chunk / GROUP;
    let next = at.chunk + GROUP;
    if at.at > 0 || at.chunk % GROUP > 0 || next >= chunks.len() {
        return None;
    }
    if chunks.group(g, &mut Ticks::new()) > 0 {
        return None;
    }
    Some(Place { chunk: next, at: 0 })
}

/// Where the next chunk begins, if there is one, and a place is the end of its own chunk, or that
/// shows nothing. Constant.
fn next_chunk(chunks: &Chunks, at: &Place) -> Option<Place>
    requires { IsPlace chunks.now at.now.chunk at.now.at }
    ensures hidden { IfSome result (Hides chunks.now at.now) }
    ensures next { IfSome result (λ next. at.now.chunk < next.chunk) }
{
    chunks.are_sized();
    let size = chunks.chunk(at.chunk, &mut Ticks::new())?;
    if at.at < size.cells && size.shown > 0 {
        return None;
    }
    let next = at.chunk + 1;
    if next >= chunks.len() {
        return None;
    }
    Some(Place { chunk: next, at: 0 })
}

/// The place of the first cell from a place on that a reader sees; the end where there is none. A
/// step for each chunk up to there, and for each cell of the first and of the last one.
pub(crate) fn first_shown(chunks: &Chunks, from: &Place) -> Place
    requires { IsPlace chunks.now from.now.chunk from.now.at }
    ensures { HidesUpTo chunks.now from.now result }
{
    let mut at = past_hidden(chunks, from);
    while let Some((cell, behind)) = next(chunks, &at) {
        if !cell.is_removed {
            return at;
        }
        at = past_hidden(chunks, &behind);
    }
    at
}
