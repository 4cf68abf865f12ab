//! The place of an edit, as a request gives it.
ghost use Rattle.std.specs.Prelude.{◌≡◌};
ghost use Rattle.serde_json.specs.View.{view};
ghost use Rattle.session_lines.specs.Fields.{Reads};
ghost use Rattle.session_lines.specs.Spots.{as_spot, spot_at};

use crate::fields::as_whole;
use crate::refusal::Refusal;
use crate::several::as_lasting;
use op_model::{Anchor, Lasting};
use serde_json::Value;

/// The place of an edit: a number of visible characters, or a place that lasts, beside which the
/// number is 0 and says nothing.
#[derive(Clone, Copy)]
pub(crate) struct Spot {
    pub(crate) number: u32,
    pub(crate) place: Option<Lasting>,
}

/// The field of this name, a place of the text.
pub(crate) fn place_at(value: &Value, key: &str) -> Result<Spot, Refusal>
    ensures { Reads result (spot_at key.now (view value.now)) }
{
    // The kit's borrow checker looks up the types that a place holds by the names in this function.
    let _: Option<(Anchor, Lasting)> = None;
    match value.get(key) {
        Some(found) => as_spot(found).ok_or(Refusal::Field),
        None => Err(Refusal::Field),
    }
}

/// A whole number, or the text of a place that lasts.
fn as_spot(value: &Value) -> Option<Spot>
    ensures { result ≡ as_spot (view value.now) }
{
    if let Some(number) = as_whole(value, 0) {
        return Some(Spot {
            number,
            place: None,
        });
    }
    let place = as_lasting(value)?;
    Some(Spot {
        number: 0,
        place: Some(place),
    })
}
