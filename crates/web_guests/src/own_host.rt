//! Whether a request names this machine by its address or as `localhost`.
ghost use Rattle.std.specs.Prelude.{◌≡◌};
ghost use Rattle.web_guests.specs.OwnHost.{is_own_host, is_host_named, is_port_of};

use crate::letters::is_same;
use itoa::Buffer;

/// Whether the host is `127.0.0.1` or `localhost`, in any case, with this port; without a port only
/// if it is 80. Any other name may point here too, as one that a web page's owner has set up does.
pub(crate) fn is_own_host(host: &[u8], port: u16) -> bool
    ensures { result ≡ is_own_host port host.now }
{
    is_host_named(host, b"127.0.0.1", port) || is_host_named(host, b"localhost", port)
}

/// Whether the host has this name and this port.
fn is_host_named(host: &[u8], name: &[u8], port: u16) -> bool
    ensures { result ≡ is_host_named name.now port host.now }
{
    match host.split_at_checked(name.len()) {
        Some((front, tail)) => is_same(front, name) && is_port_of(tail, port),
        None => false,
    }
}

/// Whether what stands after a host is this port.
fn is_port_of(tail: &[u8], port: u16) -> bool
    ensures { result ≡ is_port_of port tail.now }
{
    match tail {
        [] => port == 80,
        [b':', digits @ ..] => digits == Buffer::new().format(port).as_bytes(),
        _ => false,
    }
}
