// Formulas of formulas.
ghost use Rattle.std.specs.Prelude.{◌≡◌, IfOk};
ghost use Rattle.rel_formula.specs.Kernel.{negation};
ghost use Rattle.rel_formula.specs.View.{formula_tree};
ghost use Rattle.lowering_rules.specs.Parts as parts;

use rel_formula::Formula;
use std::alloc::{AllocError, Global};

/// The formula that is true where this one is false.
pub fn negation(alloc: Global, f: Formula) -> Result<Formula, AllocError>
    ensures { IfOk result (λ h. formula_tree h ≡ negation (formula_tree f)) }
{
    Ok(Formula::Not(Box::new(alloc, f)?))
}

/// The negation, or the formula itself.
pub fn negation_if(alloc: Global, negated: bool, f: Formula) -> Result<Formula, AllocError>
    ensures { IfOk result (λ h. formula_tree h ≡ parts.negation_if negated (formula_tree f)) }
{
    if negated { negation(alloc, f) } else { Ok(f) }
}

/// Both formulas.
pub fn both(alloc: Global, f: Formula, g: Formula) -> Result<Formula, AllocError>
    ensures { IfOk result (λ h. formula_tree h ≡ parts.both (formula_tree f) (formula_tree g)) }
{
    Ok(Formula::all_of(vec![in alloc; f, g]?))
}

/// One of the formulas, or both.
pub fn either(alloc: Global, f: Formula, g: Formula) -> Result<Formula, AllocError>
    ensures { IfOk result (λ h. formula_tree h ≡ parts.either (formula_tree f) (formula_tree g)) }
{
    Ok(Formula::any_of(vec![in alloc; f, g]?))
}

/// The second formula where the first is true.
pub fn implication(alloc: Global, f: Formula, g: Formula) -> Result<Formula, AllocError>
    ensures { IfOk result (λ h. formula_tree h ≡ parts.implication (formula_tree f) (formula_tree g)) }
{
    let not = negation(alloc, f)?;
    Ok(either(alloc, not, g)?)
}

/// The second formula where the first is true, and the third where it is false.
pub fn choice(alloc: Global, f: Formula, g: Formula, h: Formula) -> Result<Formula, AllocError>
    ensures { IfOk result (λ k. formula_tree k ≡ parts.choice (formula_tree f) (formula_tree g) (formula_tree h)) }
{
    let yes = implied_by(alloc, &f, g)?;
    let no = either(alloc, f, h)?;
    Ok(both(alloc, yes, no)?)
}

// The second formula where one equal to the first is true.
fn implied_by(alloc: Global, f: &Formula, g: Formula) -> Result<Formula, AllocError>
    ensures { IfOk result (λ k. formula_tree k ≡ parts.implication (formula_tree f.now) (formula_tree g)) }
{
    let test = f.copy(alloc)?;
    Ok(implication(alloc, test, g)?)
}

/// Both formulas or none.
pub fn equivalence(alloc: Global, f: Formula, g: Formula) -> Result<Formula, AllocError>
    ensures { IfOk result (λ h. formula_tree h ≡ parts.equivalence (formula_tree f) (formula_tree g)) }
{
    let to = implied(alloc, &f, &g)?;
    let back = unless(alloc, f, g)?;
    Ok(both(alloc, to, back)?)
}

// A formula equal to the second where one equal to the first is true.
fn implied(alloc: Global, f: &Formula, g: &Formula) -> Result<Formula, AllocError>
    ensures { IfOk result (λ h. formula_tree h ≡ parts.implication (formula_tree f.now) (formula_tree g.now)) }
{
    let other = g.copy(alloc)?;
    Ok(implied_by(alloc, f, other)?)
}

// The first formula, unless the second is false.
fn unless(alloc: Global, f: Formula, g: Formula) -> Result<Formula, AllocError>
    ensures { IfOk result (λ h. formula_tree h ≡ parts.either (formula_tree f) (negation (formula_tree g))) }
{
    let not = negation(alloc, g)?;
    Ok(either(alloc, f, not)?)
}
