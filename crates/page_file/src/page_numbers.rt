//! Numbers of pages in bytes: four each, the highest first.
ghost use Rattle.std.specs.Prelude.{◌≡◌, ◌*◌, ◌+◌, ◌≤◌, ◌++◌, IfOk, OnOk, OnErr, length, take};
ghost use Rattle.std.specs.Prelude.{drop, vec_len, vec_capacity};
ghost use Rattle.std.specs.Int.{w32, from_be_bytes, to_be_bytes};
ghost use Rattle.page_file.specs.Pages.{numbers, number_bytes};

use std::alloc::{AllocError, Global};

/// Appends numbers, each in four bytes. Memory is reserved once, before anything is written. An
/// error is out of memory (1), and leaves the bytes as they were.
pub fn put_numbers(numbers: &[u32], out: &mut Vec<u8>) -> Result<(), AllocError>
    ensures ok { OnOk result (out.new.items ≡ out.old.items ++ number_bytes numbers.now) }
    ensures err { OnErr result (out.new.items ≡ out.old.items) }
{
    out.reserve(4 * numbers.len())?;
    for number in numbers {
        put_number(*number, out);
    }
    Ok(())
}

/// The first `count` numbers, of four bytes each. One allocation; an error is out of memory (1).
pub fn take_numbers(alloc: Global, bytes: &[u8], count: usize) -> Result<Vec<u32>, AllocError>
    requires { 4 * count ≤ length bytes.now }
    ensures { IfOk result (λ found. found.items ≡ numbers count bytes.now) }
{
    let mut found = Vec::with_capacity(alloc, count)?;
    let mut rest = bytes;
    for _ in 0..count {
        let (number, after) = take_number(rest);
        found.push_reserved(number);
        rest = after;
    }
    Ok(found)
}

fn put_number(number: u32, out: &mut Vec<u8>)
    requires { vec_len out.old + 4 ≤ vec_capacity out.old }
    ensures items { out.new.items ≡ out.old.items ++ to_be_bytes w32 number }
    ensures room { vec_capacity out.new ≡ vec_capacity out.old }
{
    for byte in number.to_be_bytes() {
        out.push_reserved(byte);
    }
}

fn take_number(bytes: &[u8]) -> (u32, &[u8])
    requires { 4 ≤ length bytes.now }
    ensures first { result.0 ≡ from_be_bytes w32 (take 4 bytes.now) }
    ensures rest { result.1.now ≡ drop 4 bytes.now }
{
    let (first, rest) = bytes.split_first_chunk::<4>().unwrap();
    (u32::from_be_bytes(*first), rest)
}
