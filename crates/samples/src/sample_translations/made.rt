// Translations of problems that can be translated.
ghost use Rattle.std.specs.Prelude.{◌≡◌, ◌∷◌, []};
ghost use Rattle.rel_formula.specs.Renaming.{IsSymmetric};

use rel_formula::Problem;
use sample_problems::{is_translatable, two_sets_of};
use std::alloc::Global;
use std::test::Fail;
use translation::Translation;

/// The translation of a symmetric problem with one top-level signature. It fails where the problem can't be translated.
pub fn translation_of(alloc: Global, problem: Problem) -> Result<Translation, Fail>
    requires symmetric { IsSymmetric problem }
    requires tops { problem.tops ≡ 0 ∷ [] }
{
    let can = is_translatable(alloc, &problem)?;
    if !can {
        return Err(untranslatable());
    }
    Ok(Translation::build(alloc, problem)?)
}

/// The translation of two sets of the atoms at these places.
pub fn translated_sets(alloc: Global, places: &[u16]) -> Result<Translation, Fail> {
    let problem = two_sets_of(alloc, places)?;
    translation_of(alloc, problem)
}

fn untranslatable() -> Fail {
    Fail::new("a problem that can't be translated")
}
