//! What is said of a disk. Only clauses read it.
ghost use Rattle.std.specs.Prelude.{List, ℕ};

/// What is known of a disk at one moment. A file is the list of its bytes, as numbers.
pub trait DiskFacts {
    /// Something is promised of this disk. Of one that doesn't tell, only the kinds of errors are
    /// known.
    ghost tells: { Self → Type 0 };

    /// The file as reads give it now.
    ghost content: { Self → List ℕ };

    /// A crash now may leave this file.
    ghost survives: { Self → List ℕ → Type 0 };

    /// The time: how many calls there were so far. Each of the four calls counts, also one that
    /// fails or answers `PastEnd`.
    ghost time: { Self → ℕ };

    /// A crash at some moment since that time, in a call or between two, may have left this file.
    ghost left_since: { Self → ℕ → List ℕ → Type 0 };

    /// How many writes were begun, those that failed among them, but none that answered `PastEnd`.
    ghost writes: { Self → ℕ };

    /// How many syncs there were, those that failed among them.
    ghost syncs: { Self → ℕ };

    /// How many calls failed. `PastEnd` is no failure.
    ghost failures: { Self → ℕ };
}
