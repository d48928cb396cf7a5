// The descent of a round, from what its search found.
ghost use Rattle.std.specs.Prelude.{◌≡◌, ◌≤◌, ◌+◌, ◌∷◌, IfOk, OnOk};
ghost use Rattle.rel_formula.specs.Instance.{AreCells};
ghost use Rattle.sat_trail.specs.Trailed.{IsBase};
ghost use Rattle.translation_rules.specs.Imports.{IsImport};
ghost use Rattle.translation_rules.specs.Locals.{IsLeft};
ghost use Rattle.minimiser.specs.Lowering.{IsOver};
ghost use Rattle.session_state.specs.Rounds.Rounds.{left_in};
ghost use Rattle.session_state.specs.Rounds.Descended.{DescendsTo};

use crate::search_rounds::due::due_or_copy;
use crate::search_rounds::novel::left_after;
use crate::search_rounds::round::RoundEnd;
use minimiser::{Down, minimise_on};
use refutation_check::{Log, Part, accepted_is_entailed};
use rel_formula::Scenario;
use sat_core::{StepCount, Trail};
use std::alloc::{AllocError, Global};
use translation::Translation;

/// The end of a round whose search has this part and found this start: the round goes down from it to a scenario that is minimal above
/// the floor. The start contains no scenario that was shown. The descent takes at most `left` novel steps, and its searches raise the
/// count by no more. The trail of descents serves again afterwards. The part is handed on as it is, whatever it says.
pub(crate) fn descended(
    alloc: Global,
    translation: &Translation,
    base: &Trail,
    trail: &mut Trail,
    pool: &Log,
    floor: &Scenario,
    shown: &[Scenario],
    part: Part,
    start: &Scenario,
    left: u64,
    count: &mut StepCount,
) -> Result<RoundEnd, AllocError>
    requires base { IsBase translation.now.cnf base.now }
    requires trail { IsOver translation.now.cnf trail.old }
    requires import { IsImport translation.now pool.now }
    requires floor { AreCells translation.now.problem floor.now }
    requires start { IsLeft translation.now.problem floor.now shown.now start.now }
    requires left { left ≤ 100000000 }
    ensures trail { OnOk result (IsOver translation.now.cnf trail.new) }
    ensures answer { IfOk result (DescendsTo translation.now pool.now floor.now shown.now part start.now left) }
    ensures spent { count.new ≤ count.old + left }
    ensures left { IfOk result (λ end. count.new + left_in end ≤ count.old + left) }
{
    accepted_is_entailed();
    let problem = translation.problem();
    match minimise_on(
        alloc,
        translation,
        base,
        trail,
        pool,
        floor,
        start,
        left,
        count,
    )? {
        Down::Minimal { scenario, parts } => {
            let over = left_after(parts.as_slice(), left);
            let all = led_by(alloc, part, parts)?;
            let images = translation.images();
            due_or_copy(alloc, problem, images, floor, shown, scenario, all, over)
        }
        Down::Spent { parts } => {
            let all = led_by(alloc, part, parts)?;
            Ok(RoundEnd::Spent { parts: all })
        }
    }
}

// The part before these parts.
pub(crate) fn led_by(
    alloc: Global,
    part: Part,
    mut others: Vec<Part>,
) -> Result<Vec<Part>, AllocError>
    ensures { IfOk result (λ parts. parts.items ≡ part ∷ others.items) }
{
    let mut parts = vec![in alloc; part]?;
    parts.append(&mut others)?;
    Ok(parts)
}
