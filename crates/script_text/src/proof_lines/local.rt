// The clauses of a proof beside those of the translation.
ghost use Rattle.std.specs.Prelude.{◌≡◌, All, IfOk};
ghost use Rattle.rel_formula.specs.Instance.{AreCells};
ghost use Rattle.translation_rules.specs.Locals as rules;
ghost use Rattle.session_rules.specs.Proofs as spec;

use cnf_core::Clause;
use rel_formula::Scenario;
use session_rules::ProofKind;
use session_state::search_rounds::locals_of;
use std::alloc::{AllocError, Global};
use translation::Translation;
use translation_rules::local_clauses::units_of;

/// The local clauses of a proof: at an end those of the floor with all that is blocked, and else the floor's units.
pub fn locals_for(
    alloc: Global,
    translation: &Translation,
    floor: &Scenario,
    kind: ProofKind,
    blocked: &[Scenario],
) -> Result<Vec<Clause>, AllocError>
    requires floor { AreCells translation.now.problem floor.now }
    requires blocked { All (AreCells translation.now.problem) blocked.now }
    ensures { IfOk result (λ clauses. clauses.items ≡ spec.locals_for translation.now floor.now kind blocked.now) }
{
    match kind {
        ProofKind::End => Ok(locals_of(alloc, translation, floor, blocked)?),
        ProofKind::NoInstance => Ok(units_at(alloc, translation, floor)?),
    }
}

// For each cell of the floor the clause which says that it is there.
fn units_at(
    alloc: Global,
    translation: &Translation,
    floor: &Scenario,
) -> Result<Vec<Clause>, AllocError>
    requires { AreCells translation.now.problem floor.now }
    ensures { IfOk result (λ clauses. clauses.items ≡ rules.units_of floor.now) }
{
    let problem = translation.problem();
    let _ = problem.relations(); // for the proof
    Ok(units_of(alloc, floor.numbers())?)
}
