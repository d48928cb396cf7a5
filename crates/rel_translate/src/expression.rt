// The matrix of an expression.
ghost use Rattle.std.specs.Prelude.{◌≡◌, ℕ, length, reverse, IfOk};
ghost use Rattle.bool_circuit.specs.Network.{size};
ghost use Rattle.rel_formula.specs.View.{expression_tree};
ghost use Rattle.rel_formula.specs.Shape.{IsWellFormed};
ghost use Rattle.rel_terms.specs.Numbers.{◌⊕◌};
ghost use Rattle.rel_terms.specs.Counting.{arities_of};
ghost use Rattle.rel_translate.specs.Tables.{IsReady};
ghost use Rattle.rel_translate.specs.Makes.{HasRoomFor, TermsOf, IsMade, AreMade};

use crate::leaves::{identity, nothing, single};
use crate::tables::Tables;
use bool_circuit::Circuit;
use bool_matrix::Matrix;
use rel_formula::{Expression, Problem};
use std::alloc::{AllocError, Global};
use tuple_core::Atom;

// The matrices of two expressions.
#[derive(Drop)]
pub struct Operands {
    pub left: Matrix,
    pub right: Matrix,
}

// The matrix of an expression, where `env` has the variables' atoms, the innermost last. At all inputs its true tuples are
// those of the expression's value, and those that are there are those of its upper value.
pub fn matrix(
    alloc: Global,
    problem: &Problem,
    tables: &Tables,
    env: &[Atom],
    circuit: &mut Circuit,
    e: &Expression,
) -> Result<Matrix, AllocError>
    requires ready { IsReady circuit.old problem.now tables.now.always tables.now.relations.items tables.now.universe (reverse env.now) }
    requires formed { IsWellFormed (arities_of problem.now) (length env.now) (expression_tree e.now) }
    requires room { HasRoomFor (size circuit.old) (TermsOf problem.now (reverse env.now) (expression_tree e.now)) }
    ensures { IfOk result (λ m. IsMade circuit.old circuit.new problem.now (reverse env.now) (expression_tree e.now) m) }
{
    match e {
        Expression::Rel(r) => Ok(tables.relations[*r as usize].copy(alloc)?),
        Expression::Var(i) => Ok(single(alloc, tables.always, env[env.len() - 1 - *i as usize])?),
        Expression::None => Ok(nothing(alloc)),
        Expression::Univ => Ok(tables.universe.copy(alloc)?),
        Expression::Iden => Ok(identity(alloc, &tables.universe)?),
        Expression::Binary(operator, a, b) => {
            let left = matrix(alloc, problem, tables, env, circuit, a)?;
            let right = matrix(alloc, problem, tables, env, circuit, b)?;
            Ok(left.combine(alloc, circuit, *operator, &right)?)
        }
        Expression::Unary(operator, a) => {
            let pairs = matrix(alloc, problem, tables, env, circuit, a)?;
            Ok(pairs.turn(alloc, circuit, *operator)?)
        }
    }
}

// The matrices of two expressions.
pub fn matrices(
    alloc: Global,
    problem: &Problem,
    tables: &Tables,
    env: &[Atom],
    circuit: &mut Circuit,
    a: &Expression,
    b: &Expression,
) -> Result<Operands, AllocError>
    requires ready { IsReady circuit.old problem.now tables.now.always tables.now.relations.items tables.now.universe (reverse env.now) }
    requires left { IsWellFormed (arities_of problem.now) (length env.now) (expression_tree a.now) }
    requires right { IsWellFormed (arities_of problem.now) (length env.now) (expression_tree b.now) }
    requires room { HasRoomFor (size circuit.old) (TermsOf problem.now (reverse env.now) (expression_tree a.now) ⊕ TermsOf problem.now (reverse env.now) (expression_tree b.now)) }
    ensures { IfOk result (λ both. AreMade circuit.old circuit.new problem.now (reverse env.now) (expression_tree a.now) (expression_tree b.now) both.left both.right) }
{
    let left = matrix(alloc, problem, tables, env, circuit, a)?;
    let right = matrix(alloc, problem, tables, env, circuit, b)?;
    Ok(Operands { left, right })
}
