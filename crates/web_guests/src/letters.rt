//! Texts but for the case of their letters.
ghost use Rattle.std.specs.Prelude.{◌≡◌};
ghost use Rattle.websocket.specs.Headers.{eq_ignore_case};

/// Whether the texts are equal but for the case of letters.
#[tactic(auto, unfolding(websocket::specs::Headers::eq_ignore_case))]
pub(crate) fn is_same(text: &[u8], other: &[u8]) -> bool
    ensures { result ≡ eq_ignore_case text.now other.now }
{
    text.eq_ignore_ascii_case(other)
}
