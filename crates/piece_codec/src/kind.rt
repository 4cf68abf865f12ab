//! The kinds of a run's record.
ghost use Rattle.std.specs.Prelude.{◌≡◌};
ghost use Rattle.change_codec.specs.Spelling.{tagged};
ghost use Rattle.piece_codec.specs.Formats.{has_runs as has_runs_of, run_named as run_named_in};

use change_codec::Format;

/// The first byte of a run's record: 5, and 16 more where it has a token.
pub(crate) fn run_byte(has_token: bool) -> u8
    ensures { result ≡ tagged has_token 5 }
{
    if has_token { 21 } else { 5 }
}

/// Whether a kind of the format is a run's: then whether that has a token.
#[tactic(auto, unfolding(crate::specs::Formats::run_named))]
pub(crate) fn run_named(format: Format, kind: u8) -> Option<bool>
    ensures { result ≡ run_named_in format kind }
{
    if kind == 5 && has_runs(format) {
        return Some(false);
    }
    if kind == 21 && format.has_tokens() {
        return Some(true);
    }
    None
}

fn has_runs(format: Format) -> bool
    ensures { result ≡ has_runs_of format }
{
    match format {
        Format::First => false,
        Format::Second | Format::Third => true,
    }
}
