// Which problems can be translated.
ghost use Rattle.std.specs.Prelude.{◌≡◌, ◌∷◌, [], IfOk, IsTrue};
ghost use Rattle.rel_terms.specs.Terms.{IsTranslatable};

use rel_formula::Problem;
use rel_terms::terms;
use std::alloc::{AllocError, Global};

/// Whether a problem with one top-level signature can be translated.
pub fn is_translatable(alloc: Global, problem: &Problem) -> Result<bool, AllocError>
    requires { problem.now.tops ≡ 0 ∷ [] }
    ensures { IfOk result (λ is. IsTrue is → IsTranslatable problem.now) }
{
    if problem.atoms().rows().len() > 64 {
        return Ok(false);
    }
    let count = terms(alloc, problem)?;
    Ok(count.is_some())
}
