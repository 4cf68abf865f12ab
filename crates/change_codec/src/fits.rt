//! Every operation has a spelling: what the types keep is what the rules of the fields ask. The
//! fields are read for the proof alone, which knows from that what their types keep.
ghost use Rattle.std.specs.Prelude.{◌<◌};
ghost use Rattle.change_codec.specs.Fits.{IsId, IsOrigin, IsMark, IsKey, IsAnchor, IsStart, IsEnd, IsContent, IsToken, HaveSixteen, IsOperation};

use op_ids::laws::token_is_not_nil;
use op_ids::{Clock, OpId, Token};
use op_model::{Anchor, Body, End, Mark, MarkKey, Op, Start};

/// Every operation has a spelling. It reads the fields and changes nothing.
pub fn every_op_has_a_spelling(op: &Op)
    ensures { IsOperation op.now }
{
    id_fits(&op.id);
    let _doc = op.doc;
    token_fits(op.token);
    deps_fit(&op.deps);
    let _deps = op.deps.entries();
    body_fits(&op.body);
}

fn id_fits(id: &OpId)
    ensures { IsId id.now }
{
    let _counter = id.counter();
    let _replica = id.replica().number();
}

fn token_fits(token: Option<Token>)
    ensures { IsToken token }
{
    if let Some(token) = token {
        token_is_not_nil(token);
    }
}

fn origin_fits(origin: &Option<OpId>)
    ensures { IsOrigin origin.now }
{
    if let Some(id) = origin {
        id_fits(id);
    }
}

fn anchor_fits(anchor: &Anchor)
    ensures { IsAnchor anchor.now }
{
    match anchor {
        Anchor::Before(id) => id_fits(id),
        Anchor::After(id) => id_fits(id),
    }
}

fn start_fits(start: &Start)
    ensures { IsStart start.now }
{
    if let Start::From(anchor) = start {
        anchor_fits(anchor);
    }
}

fn end_fits(end: &End)
    ensures { IsEnd end.now }
{
    if let End::To(anchor) = end {
        anchor_fits(anchor);
    }
}

fn mark_fits(mark: &Mark)
    ensures { IsMark mark.now }
{
    match mark {
        Mark::Strong | Mark::Em => {}
        Mark::Link(url) => {
            let _text = url.as_str();
        }
        Mark::Comment(id) => {
            let _number = id.number();
        }
    }
}

fn key_fits(key: &MarkKey)
    ensures { IsKey key.now }
{
    if let MarkKey::Comment(id) = key {
        let _number = id.number();
    }
}

fn deps_fit(deps: &Clock)
    ensures { HaveSixteen deps.now }
{
    let entries = deps.entries();
    let mut i = entries.len();
    while i > 0 {
        i -= 1;
        let _replica = entries[i].0.number();
    }
}

fn body_fits(body: &Body)
    ensures { IsContent body.now }
{
    match body {
        Body::Insert { origin, value } => {
            origin_fits(origin);
            let _value = *value as u32;
        }
        Body::Remove { target } => id_fits(target),
        Body::AddMark { mark, start, end } => {
            mark_fits(mark);
            start_fits(start);
            end_fits(end);
        }
        Body::RemoveMark { key, start, end } => {
            key_fits(key);
            start_fits(start);
            end_fits(end);
        }
    }
}
