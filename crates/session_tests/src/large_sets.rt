// Translations of problems that have no scenario where the atoms are few.
use rel_formula::{Expression, Formula};
use sample_problems::set_of;
use samples::sample_translations::translation_of;
use std::alloc::Global;
use std::test::Fail;
use translation::Translation;

/// The translation of the sets of at least three of the atoms at these places.
pub fn translated(alloc: Global, places: &[u16]) -> Result<Translation, Fail> {
    let problem = set_of(alloc, places, Formula::AtLeast(3, Expression::Rel(0)))?;
    translation_of(alloc, problem)
}
