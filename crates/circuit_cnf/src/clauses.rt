// The clause form of a circuit.
ghost use Rattle.std.specs.Prelude.{◌≡◌, ◌+◌, ◌<◌, ◌≤◌, ◌^◌, All, length, IfOk};
ghost use Rattle.cnf_core.specs.Literal.{HasVarsUpTo};
ghost use Rattle.circuit_cnf.specs.ClauseForm.{IsClauseForm, IsSmall};

use crate::encoding::encoding_of;
use crate::gates::add_clause;
use bool_circuit::{Circuit, Node};
use cnf_core::{Clause, Cnf};
use std::alloc::{AllocError, Global};

/// The most inputs and nodes, together, of a circuit that has a clause form here.
pub const MOST_SIZE: u32 = 268_435_456;

/// The clause form of a circuit with this node as its output.
///
/// Input i is variable i + 1. Behind the inputs comes a variable for each constant, conjunction and disjunction that the
/// output rests on; a negation is the negated literal. Each gate has the clauses that say what it is, so a valuation of
/// the inputs has exactly one extension that satisfies them; the last clause asks that the output is true.
/// The circuit has at most `MOST_SIZE` inputs and nodes together.
pub fn clauses_of(alloc: Global, circuit: &Circuit, output: Node) -> Result<Cnf, AllocError>
    requires output { output < length circuit.now.shapes }
    requires size { circuit.now.inputs + length circuit.now.shapes ≤ MOST_SIZE }
    ensures form { IfOk result (IsClauseForm circuit.now output) }
    ensures small { IfOk result (IsSmall circuit.now) }
{
    let mut encoding = encoding_of(alloc, circuit, output)?;
    let literal = encoding.literals[output.place() as usize];
    add_clause(alloc, &mut encoding.clauses, &[literal])?;
    Ok(formula_of(alloc, encoding.vars, encoding.clauses)?)
}

// The formula of these clauses.
fn formula_of(alloc: Global, vars: u32, clauses: Vec<Clause>) -> Result<Cnf, AllocError>
    requires vars { vars < 2 ^ 31 }
    requires within { All (HasVarsUpTo vars) clauses.items }
    requires few { length clauses.items < 2 ^ 30 }
    ensures { IfOk result (λ f. f ≡ record { vars = vars; clauses = clauses.items }) }
{
    let mut formula = Cnf::new(alloc, vars);
    for clause in clauses {
        formula.push(clause)?;
    }
    Ok(formula)
}
