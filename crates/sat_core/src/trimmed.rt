// The steps of a log that its last step needs.
ghost use Rattle.std.specs.Prelude.{◌≡◌, ◌+◌, ◌<◌, ◌≤◌, ◌^◌, ◌∷◌, [], All, IfOk, length};
ghost use Rattle.sat_core.specs.Assuming.{numbered};
ghost use Rattle.sat_core.specs.Trimmed.{AreNeededFrom, AreNumbers, IsLastMarked, IsMarkedBy, IsTrimmed, NamesBefore, number_by, trimmed_by};

use refutation_check::{Hints, Log, Step};
use std::alloc::{AllocError, Global};

/// The steps that the last one needs: itself, and those that a hint of one of them names. Hints number so many clauses first, and then
/// the steps that are left.
pub(crate) fn trimmed(alloc: Global, given: u32, log: &Log) -> Result<Log, AllocError>
    requires few { given + length log.now < 2 ^ 30 }
    requires hints { NamesBefore given log.now }
    ensures { IfOk result (IsTrimmed given log.now) }
{
    let steps = log.steps();
    let marks = needed(alloc, given, steps)?;
    let numbers = numbers_of(alloc, given, marks.as_slice())?;
    marked_steps(alloc, given, steps, marks.as_slice(), numbers.as_slice())
}

// A mark for each step: true at those that the last one needs.
fn needed(alloc: Global, given: u32, steps: &[Step]) -> Result<Vec<bool>, AllocError>
    requires few { given + length steps.now < 2 ^ 30 }
    requires hints { NamesBefore given steps.now }
    ensures { IfOk result (λ marks. AreNeededFrom given steps.now 0 marks.items) }
{
    let mut marks = last_marked(alloc, steps.len())?;
    for place in (0..steps.len()).rev() {
        pass_on(&mut marks, given, steps, place);
    }
    Ok(marks)
}

// So many marks, of which the last one alone is set.
fn last_marked(alloc: Global, count: usize) -> Result<Vec<bool>, AllocError>
    ensures { IfOk result (λ marks. IsLastMarked count marks.items) }
{
    let mut marks = vec![in alloc; false; count]?;
    if count > 0 {
        marks[count - 1] = true;
    }
    Ok(marks)
}

// Where this step is marked, it marks those that it names.
fn pass_on(marks: &mut Vec<bool>, given: u32, steps: &[Step], place: usize)
    requires place { place < length steps.now }
    requires hints { NamesBefore given steps.now }
    requires needed { AreNeededFrom given steps.now (place + 1) marks.old.items }
    ensures { AreNeededFrom given steps.now place marks.new.items }
{
    if marks[place] {
        mark_named(marks, given, steps[place].hints.numbers());
    }
}

// Marks the steps that these hints name.
fn mark_named(marks: &mut Vec<bool>, given: u32, hints: &[u32])
    requires { All (λ hint. hint ≤ given + length marks.old.items) hints.now }
    ensures { IsMarkedBy given hints.now marks.old.items marks.new.items }
{
    for hint in hints {
        mark_one(marks, given, *hint);
    }
}

// Marks the step of this number, where it is no clause's.
fn mark_one(marks: &mut Vec<bool>, given: u32, hint: u32)
    requires { hint ≤ given + length marks.old.items }
    ensures { IsMarkedBy given (hint ∷ []) marks.old.items marks.new.items }
{
    if hint > given {
        marks[(hint - given - 1) as usize] = true;
    }
}

// The number that each marked step has behind so many clauses, where the steps without a mark are left out.
fn numbers_of(alloc: Global, given: u32, marks: &[bool]) -> Result<Vec<u32>, AllocError>
    requires { given + length marks.now < 2 ^ 30 }
    ensures { IfOk result (λ numbers. AreNumbers given marks.now numbers.items) }
{
    let mut numbers = Vec::with_capacity(alloc, marks.len())?;
    let mut number = given;
    for is_marked in marks {
        number += u32::from(*is_marked);
        numbers.push(number)?;
    }
    Ok(numbers)
}

// The steps that are marked, by these numbers.
fn marked_steps(
    alloc: Global,
    given: u32,
    steps: &[Step],
    marks: &[bool],
    numbers: &[u32],
) -> Result<Log, AllocError>
    requires few { length steps.now < 2 ^ 30 }
    requires hints { NamesBefore given steps.now }
    requires marks { length marks.now ≡ length steps.now }
    requires numbers { length numbers.now ≡ length steps.now }
    ensures { IfOk result (λ log. log ≡ trimmed_by given numbers.now marks.now steps.now) }
{
    let mut log = Log::new(alloc);
    for (place, step) in steps.iter().enumerate() {
        if marks[place] {
            log.push(renumbered(alloc, given, numbers, step)?)?;
        }
    }
    Ok(log)
}

// The step with its hints by these numbers.
fn renumbered(alloc: Global, given: u32, numbers: &[u32], step: &Step) -> Result<Step, AllocError>
    requires { All (λ hint. hint ≤ given + length numbers.now) step.now.hints }
    ensures { IfOk result (λ s. s ≡ numbered (number_by given numbers.now) step.now) }
{
    let mut hints = Vec::with_capacity(alloc, step.hints.numbers().len())?;
    for hint in step.hints.numbers() {
        hints.push(number_by(given, numbers, *hint))?;
    }
    let clause = step.clause.copy(alloc)?;
    Ok(Step {
        clause,
        hints: Hints::of(hints),
    })
}

// A clause keeps its number, and a step has the one that stands at its place.
fn number_by(given: u32, numbers: &[u32], hint: u32) -> u32
    requires { hint ≤ given + length numbers.now }
    ensures { result ≡ number_by given numbers.now hint }
{
    if hint > given {
        numbers[(hint - given - 1) as usize]
    } else {
        hint
    }
}
