// Local names that are entered and left.
ghost use Rattle.std.specs.Prelude.{◌≡◌, ◌≤◌, ◌++◌, ℕ, List, length, OnOk};
ghost use Rattle.named_model.specs.Names.{onto};
ghost use Rattle.name_tables.specs.InForce.{with_locals};

use alloy_syntax::tree::Name;
use name_tables::Names;
use std::alloc::{AllocError, Global};

// Enters local names, each inside those before.
pub fn enter_all(alloc: Global, names: &mut Names, new: &[Name]) -> Result<(), AllocError>
    ensures { OnOk result (names.new ≡ with_locals names.old (onto new.now names.old.locals)) }
{
    for name in new {
        names.enter(alloc, name.text.text())?;
    }
    Ok(())
}

/// Leaves the innermost local names, until so many are left. With no more than that nothing happens.
pub fn leave_until(names: &mut Names, depth: usize)
    ensures left { (inner outer : List (List ℕ)) → names.old.locals ≡ inner ++ outer → length outer ≡ depth → names.new ≡ with_locals names.old outer }
    ensures short { length names.old.locals ≤ depth → names.new ≡ names.old }
{
    'each: while names.depth() > depth {
        names.leave();
    }
}
