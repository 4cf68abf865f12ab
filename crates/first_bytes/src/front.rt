//! Whether what came can be how a session begins.
ghost use Rattle.std.specs.Prelude.{◌≡◌, ◌++◌, ◌∷◌, List, ℕ, []};
ghost use Rattle.first_bytes.specs.Beginnings.{is_control, is_foreign_after, is_word_byte};

/// How what came from a connection begins. A web page can have a browser send bytes here without
/// asking: as HTTP or TLS begin, or another protocol that isn't ours. No line of a session begins
/// so.
#[derive(Clone, Copy, Debug, Drop, PartialEq, Eq)]
pub enum Front {
    /// Nothing came so far.
    Nothing,
    /// A word as the methods of HTTP are, and nothing else so far.
    Word,
    /// No session's: a word and a space, as a request of HTTP begins, or a control byte other than
    /// tab, line feed and carriage return, as TLS begins.
    Foreign,
    /// Anything else, as a session may begin.
    Other,
}

impl Front {
    /// Whether no session begins so.
    pub fn is_foreign(self) -> bool
        ensures { result ≡ is_foreign_after self [] }
    {
        self == Front::Foreign
    }

    /// The beginning, once these bytes have come too.
    pub fn behind(self, bytes: &[u8]) -> Front
        ensures { (more : List ℕ) → is_foreign_after result more
            ≡ is_foreign_after self (bytes.now ++ more) }
    {
        match self {
            Front::Foreign | Front::Other => self,
            Front::Nothing | Front::Word => {
                let mut front = self;
                for byte in bytes {
                    front = front.next(*byte);
                }
                front
            }
        }
    }

    /// The beginning, once this byte has come too.
    fn next(self, byte: u8) -> Front
        ensures { (more : List ℕ) → is_foreign_after result more
            ≡ is_foreign_after self (byte ∷ more) }
    {
        match self {
            Front::Nothing if is_control(byte) => Front::Foreign,
            Front::Word if byte == b' ' => Front::Foreign,
            Front::Nothing | Front::Word if is_word_byte(byte) => Front::Word,
            Front::Nothing | Front::Word => Front::Other,
            Front::Foreign | Front::Other => self,
        }
    }
}

/// Whether it is a control byte that stands in no line.
fn is_control(byte: u8) -> bool
    ensures { result ≡ is_control byte }
{
    byte.is_ascii_control() && !matches!(byte, b'\t' | b'\n' | b'\r')
}

/// Whether it may stand in a method of HTTP.
fn is_word_byte(byte: u8) -> bool
    ensures { result ≡ is_word_byte byte }
{
    byte.is_ascii_alphanumeric() || b"!#$%&'*+-.^_`|~".contains(&byte)
}
