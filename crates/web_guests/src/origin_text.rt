//! Which texts are origins.
ghost use Rattle.std.specs.Prelude.{◌≡◌, ◌≤◌, ◌==◌, ◌<◌, true, length, position, IfSome};
ghost use Rattle.std.specs.List.{list_all};
ghost use Rattle.std.specs.Char.{is_ascii_digit};
ghost use Rattle.std.specs.Str.Parse.{digits_value};
ghost use Rattle.web_guests.specs.Origins.{is_origin, is_from_place, is_scheme, is_scheme_byte};
ghost use Rattle.web_guests.specs.Origins.{is_place, is_host, is_name, is_name_byte, host_end};
ghost use Rattle.web_guests.specs.Origins.{is_address, is_address_byte, is_port_tail, is_port};
ghost use Rattle.web_guests.specs.Origins.{is_own_port, until};

/// The longest origin, in bytes.
const LONGEST: usize = 255;

/// Whether a browser writes an origin like this, of 255 bytes at most.
pub(crate) fn is_origin(text: &[u8]) -> bool
    ensures { result ≡ is_origin text.now }
{
    text.len() <= LONGEST && is_from_place(text)
}

/// Whether it is a scheme, `://` and a place.
fn is_from_place(text: &[u8]) -> bool
    ensures { result ≡ is_from_place text.now }
{
    let (scheme, rest) = text.split_at(until(b':', text));
    match rest.strip_prefix(b"://") {
        Some(place) => is_scheme(scheme) && is_place(scheme, place),
        None => false,
    }
}

/// How many bytes come before the first of this one; all where there is none.
fn until(byte: u8, text: &[u8]) -> usize
    ensures bound { result ≤ length text.now }
    ensures value { result ≡ until byte text.now }
{
    match place_of(byte, text) {
        Some(place) => place,
        None => text.len(),
    }
}

/// Where the first of this byte is.
fn place_of(byte: u8, text: &[u8]) -> Option<usize>
    ensures bound { IfSome result (λ place. place < length text.now) }
    ensures value { result ≡ position (λ b. b == byte) text.now }
{
    text.iter().position(|b| *b == byte)
}

/// Whether it is a letter in lower case, and then such letters, digits, `+`, `-` and `.`.
fn is_scheme(text: &[u8]) -> bool
    ensures { result ≡ is_scheme text.now }
{
    match text {
        [first, rest @ ..] => first.is_ascii_lowercase() && are_scheme_bytes(rest),
        [] => false,
    }
}

fn are_scheme_bytes(text: &[u8]) -> bool
    ensures { result ≡ list_all is_scheme_byte text.now }
{
    text.iter().all(|byte| is_scheme_byte(*byte))
}

fn is_scheme_byte(byte: u8) -> bool
    ensures { result ≡ is_scheme_byte byte }
{
    byte.is_ascii_lowercase() || byte.is_ascii_digit() || matches!(byte, b'+' | b'-' | b'.')
}

/// Whether it is a host, and no port or one that this scheme doesn't have by itself.
fn is_place(scheme: &[u8], place: &[u8]) -> bool
    ensures { result ≡ is_place scheme.now place.now }
{
    let (host, tail) = place.split_at(host_end(place));
    is_host(host) && is_port_tail(scheme, tail)
}

/// Where the host ends: after the bracket that closes an address, or before the first colon.
fn host_end(place: &[u8]) -> usize
    ensures bound { result ≤ length place.now }
    ensures value { result ≡ host_end place.now }
{
    match place {
        [b'[', ..] => place.len().min(until(b']', place) + 1),
        _ => until(b':', place),
    }
}

/// Whether it is a name or an address.
fn is_host(text: &[u8]) -> bool
    ensures { result ≡ is_host text.now }
{
    is_name(text) || is_address(text)
}

/// Whether it is a name or an IPv4 address.
fn is_name(text: &[u8]) -> bool
    ensures { result ≡ is_name text.now }
{
    !text.is_empty() && are_name_bytes(text)
}

fn are_name_bytes(text: &[u8]) -> bool
    ensures { result ≡ list_all is_name_byte text.now }
{
    text.iter().all(|byte| is_name_byte(*byte))
}

fn is_name_byte(byte: u8) -> bool
    ensures { result ≡ is_name_byte byte }
{
    byte.is_ascii_lowercase() || byte.is_ascii_digit() || matches!(byte, b'-' | b'.' | b'_')
}

/// Whether it is an IPv6 address in brackets.
fn is_address(text: &[u8]) -> bool
    ensures { result ≡ is_address text.now }
{
    let len = text.len();
    len > 2 && text[0] == b'[' && text[len - 1] == b']' && are_address_bytes(&text[1..len - 1])
}

fn are_address_bytes(text: &[u8]) -> bool
    ensures { result ≡ list_all is_address_byte text.now }
{
    text.iter().all(|byte| is_address_byte(*byte))
}

fn is_address_byte(byte: u8) -> bool
    ensures { result ≡ is_address_byte byte }
{
    matches!(byte, b'0'..=b'9' | b'a'..=b'f' | b':' | b'.')
}

/// Whether it is nothing, or a colon and a port that this scheme doesn't have by itself.
fn is_port_tail(scheme: &[u8], tail: &[u8]) -> bool
    ensures { result ≡ is_port_tail scheme.now tail.now }
{
    match tail {
        [] => true,
        [b':', port @ ..] => is_port(port) && !is_own_port(scheme, port),
        _ => false,
    }
}

/// Whether the scheme has this port by itself, so that browsers leave it out.
fn is_own_port(scheme: &[u8], port: &[u8]) -> bool
    ensures { result ≡ is_own_port scheme.now port.now }
{
    match scheme {
        b"http" => port == b"80".as_slice(),
        b"https" => port == b"443".as_slice(),
        _ => false,
    }
}

/// Whether it is a number from 1 to 65,535 in decimal digits, with no zero in front.
fn is_port(digits: &[u8]) -> bool
    ensures { result ≡ is_port digits.now }
{
    let len = digits.len();
    0 < len && len <= 5 && digits[0] != b'0' && is_decimal(digits) && value_of(digits) <= 65_535
}

/// Whether all bytes are decimal digits.
fn is_decimal(text: &[u8]) -> bool
    ensures { result ≡ list_all is_ascii_digit text.now }
{
    text.iter().all(|byte| byte.is_ascii_digit())
}

/// The number of a few decimal digits.
fn value_of(digits: &[u8]) -> u32
    requires few { length digits.now ≤ 5 }
    requires decimal { list_all is_ascii_digit digits.now ≡ true }
    ensures { result ≡ digits_value 10 digits.now }
{
    let mut value = 0;
    for digit in digits {
        value = value * 10 + (*digit - b'0') as u32;
    }
    value
}
