// Whether a problem has an instance: of small sets of atoms.
ghost use Rattle.std.specs.Prelude.{◌≡◌, ◌≤◌, ◌∷◌, [], IfOk};
ghost use Rattle.rel_formula.specs.Renaming.{IsSymmetric};

use decision_reports::decision::{Decision, decide};
use rel_formula::{Expression, Formula, Problem};
use sample_problems::set_of;
use samples::sample_translations::{translated_sets, translation_of};
use std::alloc::Global;
use std::process::Abort;
use std::test::Fail;
use translation::Translation;

const BUDGET: u64 = 20_000;

// What a decision comes to: the cells of the instance, if there is one.
#[derive(Drop, Debug, PartialEq)]
enum Told {
    Holds,
    Fails(Vec<u32>),
    Spent,
}

fn decided(alloc: Global, translation: &Translation, budget: u64) -> Result<Told, Fail>
    requires { budget ≤ 100000000 }
{
    match decide(alloc, translation, budget)? {
        Decision::Holds { proof } => {
            if proof.blocked().is_empty() && proof.pool().steps().is_empty() {
                Ok(Told::Holds)
            } else {
                Err("something is blocked or imported")?
            }
        }
        Decision::Fails { scenario } => Ok(Told::Fails(Vec::from_slice(
            alloc,
            scenario.numbers(),
        )?)),
        Decision::Spent { parts: _ } => Ok(Told::Spent),
    }
}

// A set of three atoms, of which there are at least so many.
fn at_least(alloc: Global, count: u32) -> Result<Problem, Fail>
    ensures symmetric { IfOk result IsSymmetric }
    ensures tops { IfOk result (λ p. p.tops ≡ 0 ∷ []) }
{
    set_of(
        alloc,
        &[0, 1, 2],
        Formula::AtLeast(count, Expression::Rel(0)),
    )
}

fn fails(rt: &impl Abort, alloc: Global, count: u32, cells: &[u32]) -> Result<(), Fail> {
    let translation = translation_of(alloc, at_least(alloc, count)?)?;
    let cells = Vec::from_slice(alloc, cells)?;
    assert_eq!(rt; decided(alloc, &translation, BUDGET)?, Told::Fails(cells));
    Ok(())
}

#[test]
fn an_instance_is_minimal_and_settled(rt: HostRuntime) -> Result<(), Fail> {
    fails(&rt, rt.alloc(), 0, &[])?;
    fails(&rt, rt.alloc(), 1, &[0])?;
    fails(&rt, rt.alloc(), 3, &[0, 1, 2])
}

#[test]
fn four_of_three_atoms_are_none(rt: HostRuntime) -> Result<(), Fail> {
    let translation = translation_of(rt.alloc(), at_least(rt.alloc(), 4)?)?;
    assert_eq!(&rt; decided(rt.alloc(), &translation, BUDGET)?, Told::Holds);
    Ok(())
}

// at budget 0 nothing is learnt, and a step is wanted to show that there is no instance
#[test]
fn a_budget_of_0_is_spent(rt: HostRuntime) -> Result<(), Fail> {
    let translation = translation_of(rt.alloc(), at_least(rt.alloc(), 4)?)?;
    assert_eq!(&rt; decided(rt.alloc(), &translation, 0)?, Told::Spent);
    Ok(())
}

#[test]
fn of_two_sets_the_first_is_empty(rt: HostRuntime) -> Result<(), Fail> {
    let translation = translated_sets(rt.alloc(), &[0, 1, 2])?;
    let cells = Vec::from_slice(rt.alloc(), &[3])?;
    assert_eq!(&rt;
        decided(rt.alloc(), &translation, BUDGET)?,
        Told::Fails(cells)
    );
    Ok(())
}
