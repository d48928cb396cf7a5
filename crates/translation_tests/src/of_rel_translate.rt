// That the node has the truth that the evaluator finds, in every scenario of small problems of a set and a relation.
ghost use Rattle.std.specs.Prelude.{◌≡◌, ◌∷◌, [], All, IfOk};
ghost use Rattle.rel_formula.specs.Kernel.{rel, var, product, within};
ghost use Rattle.rel_formula.specs.Shape.{IsProper};
ghost use Rattle.rel_formula.specs.View.{formula_tree};

use rel_formula::{Comparison, Expression, Formula, Problem, Quantifier, holds};
use rel_translate::{ProblemCircuit, circuit_of};
use sample_problems::{arrows, is_translatable, scenario_of, two};
use std::alloc::{AllocError, Global};
use std::process::Abort;
use std::test::Fail;
use tuple_core::{Operator, UnaryOperator};

// The values of so many inputs that the bits of a number say.
fn inputs_of(alloc: Global, bits: u32, count: u32) -> Result<Vec<bool>, AllocError> {
    let mut inputs = Vec::new(alloc);
    let mut rest = bits;
    for _ in 0..count {
        inputs.push(rest % 2 == 1)?;
        rest /= 2;
    }
    Ok(inputs)
}

// The formula's truth in the scenario of these bits.
fn holds_at(alloc: Global, problem: &Problem, bits: u32) -> Result<bool, AllocError> {
    let scenario = scenario_of(alloc, problem, bits)?;
    holds(alloc, problem, &scenario)
}

// The node's value where so many inputs are these bits.
fn value_at(
    rt: &impl Abort,
    alloc: Global,
    made: &ProblemCircuit,
    bits: u32,
    count: u32,
) -> Result<bool, AllocError> {
    let inputs = inputs_of(alloc, bits, count)?;
    assert!(rt; made.node.place() < made.circuit.len());
    assert!(rt; inputs.len() == made.circuit.inputs() as usize);
    made.circuit.eval(alloc, made.node, &inputs)
}

// That they are the same in each scenario.
fn agrees_in_each(
    rt: &impl Abort,
    alloc: Global,
    problem: &Problem,
    made: &ProblemCircuit,
) -> Result<(), AllocError> {
    assert!(rt; problem.cells() <= 9);
    for bits in 0..1u32 << problem.cells() {
        let expected = holds_at(alloc, problem, bits)?;
        let found = value_at(rt, alloc, made, bits, problem.cells())?;
        assert!(rt; found == expected);
    }
    Ok(())
}

// That it is so of the circuit of a problem with one top-level signature.
fn problem_agrees(rt: &impl Abort, alloc: Global, problem: &Problem) -> Result<(), AllocError>
    requires { problem.now.tops ≡ 0 ∷ [] }
{
    assert!(rt; is_translatable(alloc, problem)?);
    let made = circuit_of(alloc, problem)?;
    agrees_in_each(rt, alloc, problem, &made)
}

// That it is so where these are the arrows' places, of which these are fixed.
fn agrees(
    rt: &impl Abort,
    alloc: Global,
    fixed: &[u16],
    places: &[u16],
    formula: Formula,
) -> Result<(), Fail>
    requires { IsProper (1 ∷ 2 ∷ []) 0 (formula_tree formula) }
{
    let problem = arrows(alloc, fixed, places, formula)?;
    Ok(problem_agrees(rt, alloc, &problem)?)
}

// That it is so of the count of the pairs, of the atoms, and of no atoms.
fn count_agrees(rt: &impl Abort, alloc: Global, n: u32) -> Result<(), Fail> {
    let of_pairs = Formula::AtLeast(n, Expression::Rel(1));
    agrees(rt, alloc, &[], &[0, 1], of_pairs)?;
    let of_atoms = Formula::AtLeast(n, Expression::Rel(0));
    agrees(rt, alloc, &[1], &[0, 1], of_atoms)?;
    let of_none = Formula::AtLeast(n, Expression::Univ);
    agrees(rt, alloc, &[], &[], of_none)
}

fn counts_agree(rt: &impl Abort, alloc: Global, numbers: &[u32]) -> Result<(), Fail> {
    for n in numbers {
        count_agrees(rt, alloc, *n)?;
    }
    Ok(())
}

// There are 0, 1, all, and more than all of the pairs, or so many of the atoms.
#[test]
fn counts(rt: HostRuntime) -> Result<(), Fail> {
    counts_agree(&rt, rt.alloc(), &[0, 1, 2, 4, 5])
}

#[test]
fn unions(rt: HostRuntime) -> Result<(), Fail> {
    let (a, b) = two(rt.alloc(), Expression::Rel(1), Expression::Iden)?;
    let formula = Formula::Compared(
        Comparison::Equal,
        Expression::Binary(Operator::Union, a, b),
        Expression::Rel(1),
    );
    agrees(&rt, rt.alloc(), &[], &[0, 1], formula)
}

#[test]
fn differences(rt: HostRuntime) -> Result<(), Fail> {
    let (a, b) = two(rt.alloc(), Expression::Iden, Expression::Rel(1))?;
    let formula = Formula::AtLeast(1, Expression::Binary(Operator::Minus, a, b));
    agrees(&rt, rt.alloc(), &[0], &[0, 1], formula)
}

#[test]
fn intersections(rt: HostRuntime) -> Result<(), Fail> {
    let (a, b) = two(rt.alloc(), Expression::Iden, Expression::Rel(1))?;
    let formula = Formula::AtLeast(2, Expression::Binary(Operator::Meet, a, b));
    agrees(&rt, rt.alloc(), &[], &[0, 1], formula)
}

#[test]
fn products(rt: HostRuntime) -> Result<(), Fail> {
    let (a, b) = two(rt.alloc(), Expression::Univ, Expression::Rel(0))?;
    let formula = Formula::Compared(
        Comparison::In,
        Expression::Binary(Operator::Product, a, b),
        Expression::Rel(1),
    );
    agrees(&rt, rt.alloc(), &[], &[0, 1], formula)
}

#[test]
fn the_empty_set(rt: HostRuntime) -> Result<(), Fail> {
    let formula = Formula::Compared(Comparison::In, Expression::None, Expression::Rel(0));
    agrees(&rt, rt.alloc(), &[], &[0, 1], formula)
}

#[test]
fn joins(rt: HostRuntime) -> Result<(), Fail> {
    let (a, b) = two(rt.alloc(), Expression::Rel(0), Expression::Rel(1))?;
    let formula = Formula::Compared(
        Comparison::In,
        Expression::Rel(0),
        Expression::Binary(Operator::Join, a, b),
    );
    agrees(&rt, rt.alloc(), &[], &[0, 1], formula)
}

#[test]
fn transpositions(rt: HostRuntime) -> Result<(), Fail> {
    let arrows = Box::new(rt.alloc(), Expression::Rel(1))?;
    let formula = Formula::Compared(
        Comparison::In,
        Expression::Unary(UnaryOperator::Transpose, arrows),
        Expression::Rel(1),
    );
    agrees(&rt, rt.alloc(), &[], &[0, 1], formula)
}

#[test]
fn closures(rt: HostRuntime) -> Result<(), Fail> {
    let arrows = Box::new(rt.alloc(), Expression::Rel(1))?;
    let formula = Formula::Compared(
        Comparison::In,
        Expression::Unary(UnaryOperator::Closure, arrows),
        Expression::Rel(1),
    );
    agrees(&rt, rt.alloc(), &[0], &[0, 1], formula)
}

#[test]
fn overrides(rt: HostRuntime) -> Result<(), Fail> {
    let (a, b) = two(rt.alloc(), Expression::Iden, Expression::Rel(1))?;
    let formula = Formula::Compared(
        Comparison::Equal,
        Expression::Binary(Operator::Override, a, b),
        Expression::Rel(1),
    );
    agrees(&rt, rt.alloc(), &[], &[0, 1], formula)
}

#[test]
fn restrictions_of_the_domain(rt: HostRuntime) -> Result<(), Fail> {
    let (a, b) = two(rt.alloc(), Expression::Rel(0), Expression::Rel(1))?;
    let formula = Formula::Compared(
        Comparison::In,
        Expression::Rel(1),
        Expression::Binary(Operator::Dom, a, b),
    );
    agrees(&rt, rt.alloc(), &[], &[0, 1], formula)
}

#[test]
fn restrictions_of_the_range(rt: HostRuntime) -> Result<(), Fail> {
    let (a, b) = two(rt.alloc(), Expression::Rel(1), Expression::Rel(0))?;
    let formula = Formula::Compared(
        Comparison::In,
        Expression::Rel(1),
        Expression::Binary(Operator::Ran, a, b),
    );
    agrees(&rt, rt.alloc(), &[], &[0, 1], formula)
}

// A set beside the relation, on either side.
#[test]
fn triples(rt: HostRuntime) -> Result<(), Fail> {
    let (a, b) = two(rt.alloc(), Expression::Rel(0), Expression::Rel(1))?;
    let (c, d) = two(rt.alloc(), Expression::Rel(1), Expression::Rel(0))?;
    let formula = Formula::Compared(
        Comparison::In,
        Expression::Binary(Operator::Product, a, b),
        Expression::Binary(Operator::Product, c, d),
    );
    agrees(&rt, rt.alloc(), &[], &[0, 1], formula)
}

// The relation again, as what is joined to the set beside it.
#[test]
fn joined_triples(rt: HostRuntime) -> Result<(), Fail> {
    let (a, b) = two(rt.alloc(), Expression::Rel(1), Expression::Rel(0))?;
    let (c, d) = two(
        rt.alloc(),
        Expression::Binary(Operator::Product, a, b),
        Expression::Rel(0),
    )?;
    let formula = Formula::Compared(
        Comparison::Equal,
        Expression::Binary(Operator::Join, c, d),
        Expression::Rel(1),
    );
    agrees(&rt, rt.alloc(), &[1], &[0, 1], formula)
}

// All pairs of three atoms are linked by arrows, as where these make a cycle.
#[test]
fn cycles(rt: HostRuntime) -> Result<(), Fail> {
    let arrows = Box::new(rt.alloc(), Expression::Rel(1))?;
    let formula = Formula::AtLeast(9, Expression::Unary(UnaryOperator::Closure, arrows));
    agrees(&rt, rt.alloc(), &[0, 1, 2], &[0, 1, 2], formula)
}

// The pair of the outer variable and the inner one is an arrow.
fn linked(alloc: Global) -> Result<Box<Formula>, AllocError>
    ensures { IfOk result (λ f. formula_tree f.value ≡ within (product (var 1) (var 0)) (rel 1)) }
{
    let (a, b) = two(alloc, Expression::Var(1), Expression::Var(0))?;
    Ok(Box::new(
        alloc,
        Formula::Compared(
            Comparison::In,
            Expression::Binary(Operator::Product, a, b),
            Expression::Rel(1),
        ),
    )?)
}

// Some atom is linked to all of the set.
fn one_is_linked_to_all(rt: &impl Abort, alloc: Global, places: &[u16]) -> Result<(), Fail> {
    let inner = Box::new(
        alloc,
        Formula::Quantified(Quantifier::All, Expression::Rel(0), linked(alloc)?),
    )?;
    agrees(
        rt,
        alloc,
        &[],
        places,
        Formula::Quantified(Quantifier::Exists, Expression::Univ, inner),
    )
}

// At most one atom is linked to some of the set.
fn at_most_one_is_linked(rt: &impl Abort, alloc: Global, places: &[u16]) -> Result<(), Fail> {
    let inner = Box::new(
        alloc,
        Formula::Quantified(Quantifier::Exists, Expression::Rel(0), linked(alloc)?),
    )?;
    agrees(
        rt,
        alloc,
        &[],
        places,
        Formula::Quantified(Quantifier::Lone, Expression::Univ, inner),
    )
}

// All of the set are linked to at most one of it.
fn all_are_linked_to_at_most_one(
    rt: &impl Abort,
    alloc: Global,
    places: &[u16],
) -> Result<(), Fail> {
    let inner = Box::new(
        alloc,
        Formula::Quantified(Quantifier::Lone, Expression::Rel(0), linked(alloc)?),
    )?;
    agrees(
        rt,
        alloc,
        &[],
        places,
        Formula::Quantified(Quantifier::All, Expression::Rel(0), inner),
    )
}

fn quantifiers_agree(rt: &impl Abort, alloc: Global, places: &[u16]) -> Result<(), Fail> {
    one_is_linked_to_all(rt, alloc, places)?;
    at_most_one_is_linked(rt, alloc, places)?;
    all_are_linked_to_at_most_one(rt, alloc, places)
}

#[test]
fn quantifiers(rt: HostRuntime) -> Result<(), Fail> {
    quantifiers_agree(&rt, rt.alloc(), &[])?;
    quantifiers_agree(&rt, rt.alloc(), &[0])?;
    quantifiers_agree(&rt, rt.alloc(), &[0, 1])
}

// There is no atom; and there is an arrow.
fn none_and_some(alloc: Global) -> Result<Vec<Formula>, AllocError>
    ensures { IfOk result (λ fs. All (λ f. IsProper (1 ∷ 2 ∷ []) 0 (formula_tree f)) fs.items) }
{
    let inner = Box::new(alloc, Formula::AtLeast(1, Expression::Rel(0)))?;
    let some = Formula::AtLeast(1, Expression::Rel(1));
    Ok(vec![in alloc; Formula::Not(inner), some]?)
}

#[test]
fn conjunctions(rt: HostRuntime) -> Result<(), Fail> {
    let all = Formula::all_of(none_and_some(rt.alloc())?);
    agrees(&rt, rt.alloc(), &[], &[0, 1], all)
}

#[test]
fn disjunctions(rt: HostRuntime) -> Result<(), Fail> {
    let any = Formula::any_of(none_and_some(rt.alloc())?);
    agrees(&rt, rt.alloc(), &[], &[0, 1], any)
}
