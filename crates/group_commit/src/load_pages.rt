//! What the bytes of table pages and of data pages say.
ghost use Rattle.std.specs.Prelude.{◌≡◌, ◌+◌, ◌*◌, ◌≤◌, true};
ghost use Rattle.fixed_numbers.specs.declared.limits.TheConstants.{MAX_STREAM_LENGTH};
ghost use Rattle.fixed_numbers.specs.declared.sizes.TheConstants.{MAX_DATA_PAGES};
ghost use Rattle.root_slots.specs.Root.{pages_for};
ghost use Rattle.group_commit.specs.Loading.{are_within};

use fixed_numbers::sizes::PAGE_SIZE;

/// Whether these pages lie whole in a file of `size` bytes.
pub(crate) fn are_within(numbers: &[u32], size: u64) -> bool
    ensures { result ≡ are_within size numbers.now }
{
    for number in numbers {
        if PAGE_SIZE as u64 * u64::from(*number) + PAGE_SIZE as u64 > size {
            return false;
        }
    }
    true
}

/// How many data pages a stream of this length takes.
pub(crate) fn data_pages(stream_length: u64) -> usize
    requires { stream_length ≤ MAX_STREAM_LENGTH }
    ensures value { result ≡ pages_for PAGE_SIZE stream_length }
    ensures most { result ≤ MAX_DATA_PAGES }
    ensures room { stream_length ≤ PAGE_SIZE * result }
{
    ((stream_length + (PAGE_SIZE as u64 - 1)) / PAGE_SIZE as u64) as usize
}
