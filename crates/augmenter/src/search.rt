// One search for an instance that has some cells.
ghost use Rattle.std.specs.Prelude.{◌≤◌, ◌+◌, ◌∷◌, [], IfOk};
ghost use Rattle.rel_formula.specs.Instance.{AreCells};
ghost use Rattle.sat_trail.specs.Trailed.{IsBase};
ghost use Rattle.translation_rules.specs.Imports.{IsImport};
ghost use Rattle.translation_rules.specs.Parts.{novel_in};
ghost use Rattle.augmenter.specs.Search.{part_in, IsSearchFor, IsRightFor, IsStoppedFor};

use clause_pool::accepted_hints_name_members;
use cnf_core::Valuation;
use refutation_check::{Log, Part, accepted_is_entailed};
use rel_formula::Scenario;
use sat_core::{Answer, SavedPhases, StepCount, Trail, solve_from};
use std::alloc::{AllocError, Global};
use translation::Translation;
use translation_rules::laws::units_say_what_is_possible;
use translation_rules::local_clauses::units_of;

/// What the search for an instance with some cells comes to, with what it derived.
#[derive(Drop)]
pub enum Sought {
    /// The cells whose variables are true are such an instance.
    Possible { valuation: Valuation, part: Part },
    /// No instance has the cells: the log ends with the empty clause.
    Impossible { part: Part },
    /// The budget was spent, and the part goes on.
    Spent { part: Part },
}

/// Searches for an instance that has these cells.
///
/// The local clauses say of each cell that it is there, and only an empty step, which is the last one, rests on them. The
/// search takes at most `budget` steps, which is at most 100,000,000, and raises the count by no more, whatever it comes to. The
/// pool is an accepted log over the translation's clauses, of at most 20,000 steps. The error comes only for want of memory.
pub fn seek(
    alloc: Global,
    translation: &Translation,
    pool: &Log,
    cells: &Scenario,
    budget: u64,
    count: &mut StepCount,
) -> Result<Sought, AllocError>
    requires import { IsImport translation.now pool.now }
    requires cells { AreCells translation.now.problem cells.now }
    requires budget { budget ≤ 100000000 }
    ensures part { IfOk result (λ sought. IsSearchFor translation.now pool.now cells.now budget (part_in sought)) }
    ensures answer { IfOk result (IsRightFor translation.now pool.now cells.now budget) }
    ensures stopped { IfOk result (IsStoppedFor translation.now pool.now) }
    ensures novel { IfOk result (λ sought. count.new ≤ count.old + novel_in translation.now pool.now (part_in sought ∷ [])) }
    ensures spent { count.new ≤ count.old + budget }
{
    let cnf = translation.cnf();
    let base = Trail::over(alloc, cnf, cnf.vars())?;
    seek_from(alloc, translation, &base, pool, cells, budget, count)
}

/// Searches as `seek` does, from a trail of the translation's formula, which serves any number of searches.
pub(crate) fn seek_from(
    alloc: Global,
    translation: &Translation,
    base: &Trail,
    pool: &Log,
    cells: &Scenario,
    budget: u64,
    count: &mut StepCount,
) -> Result<Sought, AllocError>
    requires base { IsBase translation.now.cnf base.now }
    requires import { IsImport translation.now pool.now }
    requires cells { AreCells translation.now.problem cells.now }
    requires budget { budget ≤ 100000000 }
    ensures part { IfOk result (λ sought. IsSearchFor translation.now pool.now cells.now budget (part_in sought)) }
    ensures answer { IfOk result (IsRightFor translation.now pool.now cells.now budget) }
    ensures stopped { IfOk result (IsStoppedFor translation.now pool.now) }
    ensures novel { IfOk result (λ sought. count.new ≤ count.old + novel_in translation.now pool.now (part_in sought ∷ [])) }
    ensures spent { count.new ≤ count.old + budget }
{
    accepted_hints_name_members();
    accepted_is_entailed();
    units_say_what_is_possible();
    let _ = translation.problem().relations(); // for the proof
    let local = units_of(alloc, cells.numbers())?;
    let mut leaning = SavedPhases::towards(alloc, true);
    match solve_from(
        alloc,
        translation.cnf(),
        base,
        pool,
        local.as_slice(),
        budget,
        &mut leaning,
        count,
    )? {
        Answer::Found { valuation, log } => {
            let part = Part::of(local, log);
            Ok(Sought::Possible { valuation, part })
        }
        Answer::Refuted { log } => {
            let part = Part::of(local, log);
            Ok(Sought::Impossible { part })
        }
        Answer::Spent { log } => {
            let part = Part::of(local, log);
            Ok(Sought::Spent { part })
        }
    }
}
