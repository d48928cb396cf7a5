// The formula of a proof.
ghost use Rattle.std.specs.Prelude.{◌≡◌, ◌<◌, ◌≤◌, ◌+◌, ◌^◌, ◌++◌, length, All, IfOk, OnOk};
ghost use Rattle.cnf_core.specs.Literal.{HasVarsUpTo};
ghost use Rattle.translation.specs.Numbered.{vars_of};

use cnf_core::{Clause, Cnf};
use std::alloc::{AllocError, Global};
use translation::Translation;

/// The clauses of the translation and these behind them, over the variables of the translation.
pub fn formula_with(
    alloc: Global,
    translation: &Translation,
    local: &[Clause],
) -> Result<Cnf, AllocError>
    requires within { All (HasVarsUpTo (vars_of translation.now)) local.now }
    requires few { length translation.now.cnf.clauses + length local.now < 2 ^ 30 }
    ensures { IfOk result (λ f. f ≡ record { vars = vars_of translation.now; clauses = translation.now.cnf.clauses ++ local.now }) }
{
    let mut formula = Cnf::new(alloc, translation.vars());
    add_formula(alloc, &mut formula, translation.cnf())?;
    add_clauses(alloc, &mut formula, local)?;
    Ok(formula)
}

// Adds the clauses of a formula that has no more variables.
fn add_formula(alloc: Global, formula: &mut Cnf, other: &Cnf) -> Result<(), AllocError>
    requires vars { other.now.vars ≤ formula.old.vars }
    requires room { length formula.old.clauses + length other.now.clauses < 2 ^ 30 }
    ensures { OnOk result (formula.new ≡ record formula.old { clauses = formula.old.clauses ++ other.now.clauses }) }
{
    for number in 0..other.len() {
        formula.push(other.clause(number + 1).copy(alloc)?)?;
    }
    Ok(())
}

// Adds clauses.
fn add_clauses(alloc: Global, formula: &mut Cnf, clauses: &[Clause]) -> Result<(), AllocError>
    requires within { All (HasVarsUpTo formula.old.vars) clauses.now }
    requires room { length formula.old.clauses + length clauses.now < 2 ^ 30 }
    ensures { OnOk result (formula.new ≡ record formula.old { clauses = formula.old.clauses ++ clauses.now }) }
{
    for clause in clauses {
        formula.push(clause.copy(alloc)?)?;
    }
    Ok(())
}
