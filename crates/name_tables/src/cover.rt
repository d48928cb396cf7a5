// Tables that are indexed by numbers.
ghost use Rattle.std.specs.Prelude.{◌≡◌, ◌++◌, ◌<◌, ℕ, length, replicate, OnOk};

use std::alloc::AllocError;

// Makes a table long enough for this number: `empty` is put behind it.
pub fn cover<T: Copy + Drop>(table: &mut Vec<T>, number: usize, empty: T) -> Result<(), AllocError>
    ensures longer { (n : ℕ) × (table.new.items ≡ table.old.items ++ replicate n empty) }
    ensures covers { OnOk result (number < length table.new.items) }
{
    while table.len() <= number {
        table.push(empty)?;
    }
    Ok(())
}
