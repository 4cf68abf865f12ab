//! What a thread that tells has seen of a shared hub.

/// What a thread that tells has seen of a shared hub.
#[derive(Clone, Copy, Debug, PartialEq, Eq)]
pub struct News {
    /// How many operations were settled.
    pub settled: usize,
    /// How often the thread had been called.
    pub calls: u64,
    /// Whether the threads were asked to end, or the links are over.
    pub is_closing: bool,
}

impl News {
    /// Nothing was seen so far.
    pub fn none() -> News {
        News {
            settled: 0,
            calls: 0,
            is_closing: false,
        }
    }
}
