//! A web origin, from whose pages a browser may connect.
ghost use Rattle.std.specs.Prelude.{◌≡◌, true, false, IfOk, List, ℕ};
ghost use Rattle.web_guests.specs.Origins.{is_origin};

use crate::origin_text::is_origin;
use std::alloc::{AllocError, Global};
use std::marker::Model;
use thiserror::Error;

/// A web origin as browsers write it, such as `http://localhost:8080`: a scheme, a host and a port,
/// in lower case, with no path and without the port that the scheme has by itself.
#[derive(Debug, Drop)]
pub struct Origin {
    text: String,
}

/// Contracts see its text.
impl Model for Origin {
    ghost use Rattle.std.specs.Prelude.{List, ℕ};
    ghost use Rattle.std.specs.String.{string_bytes};

    ghost Value = { List ℕ };

    ghost view = { λ origin. string_bytes origin.text };
}

/// Why a text is taken for no origin.
#[derive(Clone, Copy, Debug, Drop, PartialEq, Eq, Error)]
pub enum BadOrigin {
    /// No browser writes an origin like that, or it has more than 255 bytes.
    #[error("an origin is a scheme, a host and a port, such as http://localhost:8080")]
    NotAnOrigin,
    /// There was no memory to keep it.
    #[error("out of memory")]
    OutOfMemory,
}

impl From<AllocError> for BadOrigin {
    ghost use Rattle.std.specs.Prelude.{◌≡◌};
    ghost use Rattle.web_guests.specs.declared.origin.BadOrigin.TheVariants.{OutOfMemory};

    ghost from_gives = { λ _ bad. bad ≡ OutOfMemory };

    fn from(_error: AllocError) -> BadOrigin {
        BadOrigin::OutOfMemory
    }
}

impl Origin {
    /// The origin of this text. It is refused where no browser writes an origin like that: with a
    /// path, if only a slash, a letter in upper case, the scheme's own port, `null` or `*`.
    pub fn new(alloc: Global, text: &str) -> Result<Origin, BadOrigin>
        ensures ok { IfOk result (λ origin. (origin ≡ text.now) × (is_origin text.now ≡ true)) }
        ensures bad { result ≡ Err BadOrigin.NotAnOrigin → is_origin text.now ≡ false }
    {
        if !is_origin(text.as_bytes()) {
            return Err(BadOrigin::NotAnOrigin);
        }
        Ok(Origin {
            text: String::from_str(alloc, text)?,
        })
    }

    /// Its text.
    pub fn as_str(&self) -> &str
        ensures { result.now ≡ self.now }
    {
        self.text.as_str()
    }
}
