// The first fault, in the order of the paragraphs.
ghost use Rattle.std.specs.Prelude.{◌≡◌, drop, take};
ghost use Rattle.named_model.specs.Model.{NamedTree};
ghost use Rattle.model_types.specs.Typing.{Declared};
ghost use Rattle.model_types.specs.Models.{checked, part_checked, parts_checked};
ghost use Rattle.alloy_types.specs.Outcomes.{AreOutcomes, first_fault, fault_at};

use crate::outcomes::Outcomes;
use model_types::TypeFault;
use named_model::named::Part;

// The first fault of paragraphs, in their order.
pub fn parts_checked(outcomes: &Outcomes, parts: &[Part]) -> Result<(), TypeFault>
    ensures { (m : NamedTree) (d : Declared) → AreOutcomes m d outcomes.now → result ≡ parts_checked m d parts.now }
{
    for part in parts {
        part_checked(outcomes, *part)?;
    }
    Ok(())
}

// The first fault of a paragraph.
fn part_checked(outcomes: &Outcomes, part: Part) -> Result<(), TypeFault>
    ensures { (m : NamedTree) (d : Declared) → AreOutcomes m d outcomes.now → result ≡ part_checked m d part }
{
    match part {
        Part::Fields(first, count) => first_fault(&outcomes.fields, first, count),
        Part::Fact(number) => fault_at(&outcomes.facts, number),
        Part::Callee(number) => fault_at(&outcomes.callees, number),
        Part::Assertion(number) => fault_at(&outcomes.assertions, number),
        Part::Command(number) => fault_at(&outcomes.targets, number),
    }
}

// The first fault of so many outcomes from a number on, as far as there are any.
fn first_fault(
    outcomes: &[Result<(), TypeFault>],
    first: usize,
    count: usize,
) -> Result<(), TypeFault>
    ensures { result ≡ first_fault (take count (drop first outcomes.now)) }
{
    let left = outcomes.len().saturating_sub(first);
    for number in first..first + count.min(left) {
        outcomes[number]?;
    }
    Ok(())
}

// The fault of the outcome of a number, if there is one.
fn fault_at<T>(outcomes: &[Result<T, TypeFault>], number: usize) -> Result<(), TypeFault>
    ensures { result ≡ fault_at outcomes.now number }
{
    match outcomes.get(number) {
        Some(outcome) => fault_of(outcome),
        None => Ok(()),
    }
}

fn fault_of<T>(outcome: &Result<T, TypeFault>) -> Result<(), TypeFault>
    ensures { result ≡ checked outcome.now }
{
    match outcome {
        Ok(_) => Ok(()),
        Err(fault) => Err(*fault),
    }
}
