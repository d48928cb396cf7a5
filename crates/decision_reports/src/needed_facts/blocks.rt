// Blocks of facts that aren't needed: halves first.
ghost use Rattle.std.specs.Prelude.{◌≡◌, ◌≤◌, ◌<◌, MatchResult};
ghost use Rattle.named_model.specs.View.{named_view};
ghost use Rattle.rel_lower.specs.Lowered.{IsTyped};
ghost use Rattle.lowering_rules.specs.Problem.{IsWant};
ghost use Rattle.decision_reports.specs.FactSets.{IsCore};
ghost use Rattle.decision_reports.specs.Trials.{HasWholeProblem, smaller};

use crate::needed_facts::numbers::facts_outside;
use crate::needed_facts::trials::{Core, Trial, try_some};
use lowering_rules::LowerFault;
use named_model::Named;
use std::alloc::Global;

/// Leaves out blocks of facts without which the others can't all be true either: halves, quarters, and so on down to pairs. So of
/// many facts of which few are needed, few searches leave not many more than these.
pub fn narrowed(
    alloc: Global,
    model: &Named,
    command: u32,
    mut core: Core,
    budget: u64,
) -> Result<Core, LowerFault>
    requires typed { IsTyped (named_view model.now) }
    requires whole { HasWholeProblem (named_view model.now) command }
    requires core { IsCore (named_view model.now) command core }
    requires budget { budget ≤ 100000000 }
    ensures { MatchResult result (IsCore (named_view model.now) command) IsWant }
{
    let mut size = core.facts.len();
    'sizes: while size > 2 {
        size -= size / 2;
        core = without_blocks(alloc, model, command, core, size, budget)?;
    }
    Ok(core)
}

// Leaves out blocks of this size.
fn without_blocks(
    alloc: Global,
    model: &Named,
    command: u32,
    mut core: Core,
    size: usize,
    budget: u64,
) -> Result<Core, LowerFault>
    requires typed { IsTyped (named_view model.now) }
    requires whole { HasWholeProblem (named_view model.now) command }
    requires core { IsCore (named_view model.now) command core }
    requires size { 0 < size }
    requires budget { budget ≤ 100000000 }
    ensures { MatchResult result (IsCore (named_view model.now) command) IsWant }
{
    let facts = Vec::from_slice(alloc, &core.facts)?;
    for block in facts.chunks(size) {
        core = without_block(alloc, model, command, core, block, budget)?;
    }
    Ok(core)
}

// Leaves out the facts from the first of a block to its last, where the others can't all be true.
fn without_block(
    alloc: Global,
    model: &Named,
    command: u32,
    core: Core,
    block: &[usize],
    budget: u64,
) -> Result<Core, LowerFault>
    requires typed { IsTyped (named_view model.now) }
    requires whole { HasWholeProblem (named_view model.now) command }
    requires core { IsCore (named_view model.now) command core }
    requires budget { budget ≤ 100000000 }
    ensures { MatchResult result (IsCore (named_view model.now) command) IsWant }
{
    let Some(first) = block.first() else {
        return Ok(core);
    };
    let Some(last) = block.last() else {
        return Ok(core);
    };
    let others = facts_outside(alloc, &core.facts, *first, *last)?;
    let trial = try_some(alloc, model, command, others, budget)?;
    Ok(smaller(core, trial))
}

// What was refuted in the trial, or else the core.
fn smaller(core: Core, trial: Trial) -> Core
    ensures { result ≡ smaller core trial }
{
    match trial {
        Trial::Refuted(less) => less,
        Trial::Satisfied(_) => core,
        Trial::Spent(_) => core,
    }
}
