// What types keep, of which the laws speak.
ghost use Rattle.cnf_core.specs.Formula.{IsFormula};
ghost use Rattle.translation.specs.Kept.{IsTranslation};
ghost use Rattle.work_limits.specs.Units.{AreLogs};

use refutation_check::Part;
use translation::Translation;

/// What each value that is a part of a search derives is a log.
pub fn parts_are_logs(parts: &[Part])
    ensures { AreLogs parts.now }
{
    for part in parts {
        let _ = part.log().steps(); // for the proof
    }
}

/// Each value that is a translation has all that one keeps, and its clauses are a formula.
pub fn translations_are_formulas(translation: &Translation)
    ensures translation { IsTranslation translation.now }
    ensures formula { IsFormula translation.now.cnf }
{
    let _ = translation.problem(); // for the proof
    let _ = translation.cnf().clauses();
}
