//! Whether a guest may come in, by its host and its origin.
ghost use Rattle.std.specs.Prelude.{◌≡◌, List, ℕ, option_map, find, bytes_eq};
ghost use Rattle.web_guests.specs.Stating.{States};
ghost use Rattle.web_guests.specs.Guests.{guest_check, host_is_own, is_welcome, is_named, origin_in};

use crate::origin::Origin;
use crate::own_host::is_own_host;
use crate::refusal::Refusal;
use crate::stated::Stated;

/// Whether a guest may come in: its host is this machine at this port, and it comes from no web
/// page or from one of a named origin. It is refused for its host, and else for its origin.
pub fn may_come(
    host: Stated<'_>,
    origin: Stated<'_>,
    port: u16,
    named: &[Origin],
) -> Result<(), Refusal>
    ensures { (hosts origins : List (List ℕ)) → States host.entry hosts
        → States origin.entry origins → result ≡ guest_check port named.now hosts origins }
{
    if !host_is_own(host, port) {
        return Err(Refusal::ForbiddenHost);
    }
    if !is_welcome(origin, named) {
        return Err(Refusal::ForbiddenOrigin);
    }
    Ok(())
}

/// Whether the host is stated once, and is this machine at this port.
fn host_is_own(host: Stated<'_>, port: u16) -> bool
    ensures { (hosts : List (List ℕ)) → States host.entry hosts
        → result ≡ host_is_own port hosts }
{
    match host {
        Stated::Once(host) => is_own_host(host, port),
        Stated::Never | Stated::Often => false,
    }
}

/// Whether there is no origin, or one and a named one.
fn is_welcome(origin: Stated<'_>, named: &[Origin]) -> bool
    ensures { (origins : List (List ℕ)) → States origin.entry origins
        → result ≡ is_welcome named.now origins }
{
    match origin {
        Stated::Never => true,
        Stated::Once(origin) => is_named(origin, named),
        Stated::Often => false,
    }
}

/// The named origin that is stated, if one alone is.
pub(crate) fn named_by<'n>(origin: Stated<'_>, named: &'n [Origin]) -> Option<&'n Origin>
    ensures { (origins : List (List ℕ)) → States origin.entry origins
        → option_map (λ origin. origin.now) result ≡ origin_in named.now origins }
{
    match origin {
        Stated::Once(origin) => find_named(origin, named),
        Stated::Never | Stated::Often => None,
    }
}

/// The first of these that is the origin, byte for byte.
fn find_named<'n>(origin: &[u8], named: &'n [Origin]) -> Option<&'n Origin>
    ensures { option_map (λ origin. origin.now) result
        ≡ find (λ known. bytes_eq known origin.now) named.now }
{
    named
        .iter()
        .find(|known| known.as_str().as_bytes() == origin)
}

/// Whether the origin is one of these, byte for byte.
fn is_named(origin: &[u8], named: &[Origin]) -> bool
    ensures { result ≡ is_named named.now origin.now }
{
    named
        .iter()
        .any(|known| known.as_str().as_bytes() == origin)
}
