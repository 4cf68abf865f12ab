//! Lists of numbers in rising order.
ghost use Rattle.std.specs.Prelude.{◌≡◌, OnOk, OnErr};
ghost use Rattle.op_model.specs.Rising.{IsPlace, IsUp};
ghost use Rattle.op_model.specs.Spans.{with_number};

use std::alloc::AllocError;

/// The index of a number among these, which rise, or where it goes. A search by halves.
pub fn place_among(numbers: &[u32], number: u32) -> Result<usize, usize>
    requires { IsUp numbers.now }
    ensures { IsPlace numbers.now number result }
{
    numbers.binary_search(&number)
}

/// Puts a number among these, which rise, if it isn't there. An error is out of memory (1), and
/// leaves them as they were. A search by halves, and a step for each greater number if it is new.
pub fn put_among(numbers: &mut Vec<u32>, number: u32) -> Result<(), AllocError>
    requires { IsUp numbers.old.items }
    ensures put { OnOk result (numbers.new.items ≡ with_number number numbers.old.items) }
    ensures err { OnErr result (numbers.new.items ≡ numbers.old.items) }
{
    match place_among(numbers, number) {
        Ok(_) => {}
        Err(at) => numbers.insert(at, number).map_err(AllocError::from)?,
    }
    Ok(())
}
