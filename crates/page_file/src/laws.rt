//! Laws of numbers in bytes: calls that do nothing, and whose contracts are the laws.
ghost use Rattle.std.specs.Prelude.{◌≡◌, ℕ, ◌*◌, ◌<◌, ◌^◌, List, ◌++◌, All, length};
ghost use Rattle.page_file.specs.Pages.{numbers, number_bytes};

/// Numbers that were written are read back.
pub fn numbers_are_read_back()
    ensures { (ns rest : List ℕ) → All (λ n. n < 2 ^ 32) ns
        → numbers (length ns) (number_bytes ns ++ rest) ≡ ns }
{}

/// Each number takes four bytes.
pub fn a_number_has_four_bytes()
    ensures { (ns : List ℕ) → length (number_bytes ns) ≡ 4 * length ns }
{}
