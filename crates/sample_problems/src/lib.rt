//! Small problems for tests, over the atoms of one top-level signature: a set, two sets, a set and arrows among its atoms;
//! scenarios of them; and operands and formulas.
#![tactic(auto)]

mod cells;
mod failure;
mod formulas;
mod links;
mod places;
mod sets;
mod translatable;

pub use crate::cells::{bits_of, chosen, scenario_of};
pub use crate::formulas::{no_formulas, truism, two};
pub use crate::links::arrows;
pub use crate::places::{at, atoms, pairs};
pub use crate::sets::{set_between, set_of, two_sets_of};
pub use crate::translatable::is_translatable;
