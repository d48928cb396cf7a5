// Clauses by the numbers of their literals.
ghost use Rattle.std.specs.Prelude.{◌<◌, IfOk};
ghost use Rattle.cnf_core.specs.Literal.{HasVarsUpTo};

use cnf_core::{Clause, Lit};
use std::alloc::Global;
use std::test::Fail;

/// The clause of these literals by their numbers in the DIMACS format.
pub fn clause(alloc: Global, vars: u32, numbers: &[i8]) -> Result<Clause, Fail>
    requires { vars < 128 }
    ensures { IfOk result (HasVarsUpTo vars) }
{
    let mut lits = Vec::new(alloc);
    for number in numbers {
        let var = u32::from(number.unsigned_abs());
        if var == 0 || var > vars {
            Err("no such variable")?;
        }
        lits.push(Lit {
            var,
            positive: *number > 0,
        })?;
    }
    match Clause::of(alloc, lits.as_slice())? {
        Some(clause) => Ok(clause),
        None => Err("a tautology")?,
    }
}
