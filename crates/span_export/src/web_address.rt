//! Which addresses a link may lead to.
ghost use Rattle.std.specs.Prelude.{◌≡◌, option_map};
ghost use Rattle.std.specs.List.{position};
ghost use Rattle.span_export.specs.WebAddress.{ends_scheme, scheme, is_name};
ghost use Rattle.span_export.specs.WebAddress.{is_tame};

/// Whether this byte says if an address has a scheme.
fn ends_scheme(byte: u8) -> bool
    ensures { result ≡ ends_scheme byte }
{
    byte == b':' || byte == b'/' || byte == b'?' || byte == b'#'
}

/// The first byte that says whether an address has a scheme.
fn scheme_end(address: &[u8]) -> Option<usize>
    ensures { result ≡ position ends_scheme address.now }
{
    address.iter().position(|byte| ends_scheme(*byte))
}

/// The scheme of an address, before its colon, if it has one.
fn scheme(address: &[u8]) -> Option<&[u8]>
    ensures { option_map (λ name. name.now) result ≡ scheme address.now }
{
    let place = scheme_end(address)?;
    if address[place] == b':' {
        Some(&address[..place])
    } else {
        None
    }
}

/// Whether two names are the same, in small or great letters.
fn is_name(name: &[u8], other: &[u8]) -> bool
    ensures { result ≡ is_name name.now other.now }
{
    name.eq_ignore_ascii_case(other)
}

/// Whether a link may lead to this address: it has no scheme, or `http`, `https` or `mailto`.
/// Others, `javascript` among them, could be run as a program by whoever opens them.
pub(crate) fn is_tame(address: &str) -> bool
    ensures { result ≡ is_tame address.now }
{
    match scheme(address.as_bytes()) {
        Some(name) => is_name(name, b"http") || is_name(name, b"https") || is_name(name, b"mailto"),
        None => true,
    }
}
