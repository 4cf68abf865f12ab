//! Tests of bytes and of page numbers.
ghost use Rattle.page_file.specs.Pages.{has, is_zero, are_pages};
ghost use Rattle.std.specs.Prelude.{◌≡◌};

/// Whether all bytes are zero. Takes no memory; each byte is read once.
pub fn is_zero(bytes: &[u8]) -> bool
    ensures { result ≡ is_zero bytes.now }
{
    for byte in bytes {
        if *byte != 0 {
            return false;
        }
    }
    true
}

/// Whether these are numbers of pages behind the two root slots, none of them twice. Takes no
/// memory; each number is compared with all behind it, so the steps grow with the square of their
/// count.
pub fn are_pages(numbers: &[u32]) -> bool
    ensures { result ≡ are_pages numbers.now }
{
    for at in 0..numbers.len() {
        let number = numbers[at];
        if number < 2 || has(number, &numbers[at + 1..]) {
            return false;
        }
    }
    true
}

pub(crate) fn has(number: u32, others: &[u32]) -> bool
    ensures { result ≡ has number others.now }
{
    for other in others {
        if number == *other {
            return true;
        }
    }
    false
}
