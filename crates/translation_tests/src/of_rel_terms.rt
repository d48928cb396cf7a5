// That the numbers are those worked out by hand, on problems of one set of atoms.
ghost use Rattle.std.specs.Prelude.{◌≡◌, ◌∷◌, [], ℕ, All, IfOk};
ghost use Rattle.rel_formula.specs.Kernel.{rel, var, univ, product, within};
ghost use Rattle.rel_formula.specs.Shape.{IsWellFormed, IsProper};
ghost use Rattle.rel_formula.specs.View.{expression_tree, formula_tree};

use rel_formula::{Comparison, Expression, Formula, Quantifier};
use rel_terms::{MOST_TERMS, terms};
use sample_problems::{no_formulas, set_of, two};
use std::alloc::{AllocError, Global};
use std::test::Fail;
use tuple_core::{Operator, UnaryOperator};

// The first so many places.
fn places(alloc: Global, count: u16) -> Result<Vec<u16>, AllocError> {
    let mut places = Vec::new(alloc);
    for place in 0..count {
        places.push(place)?;
    }
    Ok(places)
}

// The number of terms of a formula over one set, which may have so many atoms.
fn terms_of(alloc: Global, count: u16, formula: Formula) -> Result<Option<u32>, Fail>
    requires { IsProper (1 ∷ []) 0 (formula_tree formula) }
{
    let places = places(alloc, count)?;
    let problem = set_of(alloc, places.as_slice(), formula)?;
    Ok(terms(alloc, &problem)?)
}

// The terms of an expression and one for each tuple that it may have, over three atoms.
fn and_size(alloc: Global, e: Expression) -> Result<Option<u32>, Fail>
    requires { IsWellFormed (1 ∷ []) 0 (expression_tree e) }
{
    terms_of(alloc, 3, Formula::AtLeast(0, e))
}

#[test]
fn leaves(rt: HostRuntime) -> Result<(), Fail> {
    assert_eq!(rt; and_size(rt.alloc(), Expression::Rel(0))?, Some(3 + 3));
    assert_eq!(rt; and_size(rt.alloc(), Expression::None)?, Some(0));
    assert_eq!(rt; and_size(rt.alloc(), Expression::Univ)?, Some(3 + 3));
    assert_eq!(rt; and_size(rt.alloc(), Expression::Iden)?, Some(3 + 3));
    Ok(())
}

#[test]
fn a_union(rt: HostRuntime) -> Result<(), Fail> {
    let (a, b) = two(rt.alloc(), Expression::Rel(0), Expression::None)?;
    assert_eq!(rt;
        and_size(rt.alloc(), Expression::Binary(Operator::Union, a, b))?,
        Some(3 + 3 + 3)
    );
    Ok(())
}

#[test]
fn a_difference(rt: HostRuntime) -> Result<(), Fail> {
    let (a, b) = two(rt.alloc(), Expression::Rel(0), Expression::Univ)?;
    assert_eq!(rt;
        and_size(rt.alloc(), Expression::Binary(Operator::Minus, a, b))?,
        Some(6 + 6 + 3)
    );
    Ok(())
}

#[test]
fn an_intersection(rt: HostRuntime) -> Result<(), Fail> {
    let (a, b) = two(rt.alloc(), Expression::Rel(0), Expression::None)?;
    assert_eq!(rt;
        and_size(rt.alloc(), Expression::Binary(Operator::Meet, a, b))?,
        Some(3 + 3)
    );
    Ok(())
}

#[test]
fn a_product(rt: HostRuntime) -> Result<(), Fail> {
    let (a, b) = two(rt.alloc(), Expression::Rel(0), Expression::Univ)?;
    assert_eq!(rt;
        and_size(rt.alloc(), Expression::Binary(Operator::Product, a, b))?,
        Some(6 + 9 + 9)
    );
    Ok(())
}

#[test]
fn a_join(rt: HostRuntime) -> Result<(), Fail> {
    let (a, b) = two(rt.alloc(), Expression::Rel(0), Expression::Iden)?;
    assert_eq!(rt;
        and_size(rt.alloc(), Expression::Binary(Operator::Join, a, b))?,
        Some(6 + 3 + 3)
    );
    Ok(())
}

#[test]
fn turned_pairs(rt: HostRuntime) -> Result<(), Fail> {
    let pairs = Box::new(rt.alloc(), Expression::Iden)?;
    assert_eq!(rt;
        and_size(
            rt.alloc(),
            Expression::Unary(UnaryOperator::Transpose, pairs)
        )?,
        Some(3 + 3 + 3)
    );
    Ok(())
}

#[test]
fn chained_pairs(rt: HostRuntime) -> Result<(), Fail> {
    let pairs = Box::new(rt.alloc(), Expression::Iden)?;
    assert_eq!(rt;
        and_size(rt.alloc(), Expression::Unary(UnaryOperator::Closure, pairs))?,
        Some(3 + 6 * 3 + 3)
    );
    Ok(())
}

#[test]
fn an_override(rt: HostRuntime) -> Result<(), Fail> {
    let (a, b) = two(rt.alloc(), Expression::Iden, Expression::Iden)?;
    assert_eq!(rt;
        and_size(rt.alloc(), Expression::Binary(Operator::Override, a, b))?,
        Some(6 + 3 + 2 * 3 + 3)
    );
    Ok(())
}

#[test]
fn a_restricted_domain(rt: HostRuntime) -> Result<(), Fail> {
    let (a, b) = two(rt.alloc(), Expression::None, Expression::Iden)?;
    assert_eq!(rt;
        and_size(rt.alloc(), Expression::Binary(Operator::Dom, a, b))?,
        Some(3 + 3)
    );
    Ok(())
}

#[test]
fn a_restricted_range(rt: HostRuntime) -> Result<(), Fail> {
    let (a, b) = two(rt.alloc(), Expression::Iden, Expression::Rel(0))?;
    assert_eq!(rt;
        and_size(rt.alloc(), Expression::Binary(Operator::Ran, a, b))?,
        Some(6 + 3 + 3)
    );
    Ok(())
}

// All pairs of atoms.
fn pairs(alloc: Global) -> Result<Expression, AllocError>
    ensures { IfOk result (λ e. expression_tree e ≡ product (rel 0) univ) }
{
    let (a, b) = two(alloc, Expression::Rel(0), Expression::Univ)?;
    Ok(Expression::Binary(Operator::Product, a, b))
}

// The terms of the closure of all pairs of so many atoms, and one for each pair that it may have.
fn closure_and_size(alloc: Global, count: u16) -> Result<Option<u32>, Fail> {
    let closure = Expression::Unary(UnaryOperator::Closure, Box::new(alloc, pairs(alloc)?)?);
    terms_of(alloc, count, Formula::AtLeast(0, closure))
}

#[test]
fn closures(rt: HostRuntime) -> Result<(), Fail> {
    for (count, number) in [
        (0, Some(0)),
        (1, Some(2 + 1 + 6 + 1)),
        (2, Some(4 + 4 + 6 * 8 + 4)),
        (3, Some(6 + 9 + 6 * 27 + 9)),
        (35, Some(70 + 1225 + 6 * 42_875 + 1225)),
        (36, None),
        (64, None),
    ] {
        assert_eq!(rt; closure_and_size(rt.alloc(), count)?, number);
    }
    Ok(())
}

// The terms of all triples of so many atoms, and one for each of them.
fn triples_and_size(alloc: Global, count: u16) -> Result<Option<u32>, Fail> {
    let (a, b) = two(alloc, pairs(alloc)?, Expression::Rel(0))?;
    terms_of(
        alloc,
        count,
        Formula::AtLeast(0, Expression::Binary(Operator::Product, a, b)),
    )
}

#[test]
fn products_above_the_limit(rt: HostRuntime) -> Result<(), Fail> {
    for (count, number) in [
        (50, Some(100 + 2500 + 50 + 2 * 125_000)),
        (51, None),
        (64, None),
    ] {
        assert_eq!(rt; triples_and_size(rt.alloc(), count)?, number);
    }
    Ok(())
}

#[test]
fn inclusions_and_equalities(rt: HostRuntime) -> Result<(), Fail> {
    let within = Formula::Compared(Comparison::In, Expression::Rel(0), Expression::Univ);
    assert_eq!(rt; terms_of(rt.alloc(), 3, within)?, Some(6 + 3));
    let equal = Formula::Compared(Comparison::Equal, Expression::Rel(0), Expression::None);
    assert_eq!(rt; terms_of(rt.alloc(), 3, equal)?, Some(3 + 3));
    Ok(())
}

#[test]
fn least_numbers_of_tuples(rt: HostRuntime) -> Result<(), Fail> {
    let some = Formula::AtLeast(2, Expression::Rel(0));
    assert_eq!(rt; terms_of(rt.alloc(), 3, some)?, Some(3 + 3 * 3));
    Ok(())
}

#[test]
fn a_negation(rt: HostRuntime) -> Result<(), Fail> {
    let some = Box::new(rt.alloc(), Formula::AtLeast(1, Expression::Rel(0)))?;
    assert_eq!(rt;
        terms_of(rt.alloc(), 3, Formula::Not(some))?,
        Some(1 + 3 + 3 * 2)
    );
    Ok(())
}

// The innermost variable is in the set.
fn inner_within(alloc: Global) -> Result<Box<Formula>, AllocError>
    ensures { IfOk result (λ f. formula_tree f.value ≡ within (var 0) (rel 0)) }
{
    Ok(Box::new(
        alloc,
        Formula::Compared(Comparison::In, Expression::Var(0), Expression::Rel(0)),
    )?)
}

#[test]
fn a_universal_quantifier(rt: HostRuntime) -> Result<(), Fail> {
    let all = Formula::Quantified(
        Quantifier::All,
        Expression::Rel(0),
        inner_within(rt.alloc())?,
    );
    assert_eq!(rt;
        terms_of(rt.alloc(), 3, all)?,
        Some(3 + 3 * (1 + 1 + 3 + 1))
    );
    Ok(())
}

#[test]
fn a_universal_quantifier_over_nothing(rt: HostRuntime) -> Result<(), Fail> {
    let all = Formula::Quantified(Quantifier::All, Expression::None, inner_within(rt.alloc())?);
    assert_eq!(rt; terms_of(rt.alloc(), 3, all)?, Some(0));
    Ok(())
}

#[test]
fn an_existential_quantifier(rt: HostRuntime) -> Result<(), Fail> {
    let some = Formula::Quantified(
        Quantifier::Exists,
        Expression::Univ,
        inner_within(rt.alloc())?,
    );
    assert_eq!(rt;
        terms_of(rt.alloc(), 2, some)?,
        Some(2 + 2 * (1 + 1 + 2 + 1))
    );
    Ok(())
}

#[test]
fn at_most_one(rt: HostRuntime) -> Result<(), Fail> {
    let lone = Formula::Quantified(
        Quantifier::Lone,
        Expression::Rel(0),
        inner_within(rt.alloc())?,
    );
    assert_eq!(rt;
        terms_of(rt.alloc(), 3, lone)?,
        Some(3 + 3 * (2 + 1 + 3 + 1))
    );
    Ok(())
}

#[test]
fn a_list_without_formulas(rt: HostRuntime) -> Result<(), Fail> {
    let empty = Formula::all_of(no_formulas(rt.alloc()));
    assert_eq!(rt; terms_of(rt.alloc(), 3, empty)?, Some(1));
    Ok(())
}

// A formula of 3 terms and one of 6, over three atoms.
fn two_formulas(alloc: Global) -> Result<Vec<Formula>, AllocError>
    ensures { IfOk result (λ fs. All (λ f. IsProper (1 ∷ []) 0 (formula_tree f)) fs.items) }
{
    let none = Formula::Compared(Comparison::In, Expression::None, Expression::Rel(0));
    let some = Formula::AtLeast(0, Expression::Univ);
    Ok(vec![in alloc; none, some]?)
}

#[test]
fn all_of_two_formulas(rt: HostRuntime) -> Result<(), Fail> {
    let both = Formula::all_of(two_formulas(rt.alloc())?);
    assert_eq!(rt; terms_of(rt.alloc(), 3, both)?, Some(1 + 3 + 6));
    Ok(())
}

#[test]
fn any_of_two_formulas(rt: HostRuntime) -> Result<(), Fail> {
    let some = Formula::any_of(two_formulas(rt.alloc())?);
    assert_eq!(rt; terms_of(rt.alloc(), 3, some)?, Some(1 + 3 + 6));
    Ok(())
}

#[test]
fn at_the_limit_and_above(rt: HostRuntime) -> Result<(), Fail> {
    for (least, number) in [
        (262_141, Some(262_143)),
        (262_142, Some(MOST_TERMS)),
        (262_143, None),
        (4_294_967_295, None),
    ] {
        let least = Formula::AtLeast(least, Expression::Rel(0));
        assert_eq!(rt; terms_of(rt.alloc(), 1, least)?, number);
    }
    Ok(())
}

// For all atoms, and for all atoms, and so on.
fn nested(alloc: Global, depth: u32) -> Result<Formula, AllocError>
    ensures { IfOk result (λ f. (d : ℕ) → IsProper (1 ∷ []) d (formula_tree f)) }
{
    let mut formula = Formula::AtLeast(0, Expression::None);
    for _ in 0..depth {
        let inner = Box::new(alloc, formula)?;
        formula = Formula::Quantified(Quantifier::All, Expression::Rel(0), inner);
    }
    Ok(formula)
}

// The terms of so many such quantifiers over so many atoms.
fn nested_terms(alloc: Global, count: u16, depth: u32) -> Result<Option<u32>, Fail> {
    terms_of(alloc, count, nested(alloc, depth)?)
}

#[test]
fn nested_quantifiers(rt: HostRuntime) -> Result<(), Fail> {
    for (count, depth, number) in [
        (2, 3, Some(2 + 2 * (1 + 2 + 2 * (1 + 2 + 2)))),
        (64, 60, None),
        (0, 60, Some(0)),
    ] {
        assert_eq!(rt; nested_terms(rt.alloc(), count, depth)?, number);
    }
    Ok(())
}

#[test]
fn nested_quantifiers_over_nothing(rt: HostRuntime) -> Result<(), Fail> {
    let inner = Box::new(rt.alloc(), nested(rt.alloc(), 60)?)?;
    let none = Formula::Quantified(Quantifier::All, Expression::None, inner);
    assert_eq!(rt; terms_of(rt.alloc(), 64, none)?, Some(0));
    Ok(())
}
