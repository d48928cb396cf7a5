// The nodes of formulas over expressions: inclusions, equations and counts.
ghost use Rattle.std.specs.Prelude.{◌≡◌, ◌↔◌, ◌+◌, length, reverse, IfOk, IsTrue};
ghost use Rattle.bool_circuit.specs.Network.{size};
ghost use Rattle.rel_formula.specs.View.{expression_tree};
ghost use Rattle.rel_formula.specs.Kernel.{compared, within, equal, at_least};
ghost use Rattle.rel_formula.specs.Shape.{arity_of, IsWellFormed};
ghost use Rattle.rel_terms.specs.Counting.{arities_of};
ghost use Rattle.rel_translate.specs.Tables.{IsReady};
ghost use Rattle.rel_translate.specs.Makes.{HasRoomFor, FormulaTermsOf, IsTold};

use crate::expression::{matrices, matrix};
use crate::gates::constant;
use crate::tables::Tables;
use bool_circuit::{Circuit, Node};
use bool_matrix::Matrix;
use rel_formula::{Comparison, Expression, Problem};
use std::alloc::{AllocError, Global};
use tuple_core::Atom;

// Whether no tuple is there.
fn is_empty(matrix: &Matrix) -> bool
    ensures { IsTrue result ↔ (length matrix.now.entries ≡ 0) }
{
    matrix.entries().is_empty()
}

// Whether no tuple is there in either of two matrices.
fn are_empty(left: &Matrix, right: &Matrix) -> bool
    ensures { IsTrue result ↔ (length left.now.entries + length right.now.entries ≡ 0) }
{
    is_empty(left) && is_empty(right)
}

// The node of a comparison.
pub fn is_compared(
    alloc: Global,
    problem: &Problem,
    tables: &Tables,
    env: &[Atom],
    circuit: &mut Circuit,
    comparison: Comparison,
    a: &Expression,
    b: &Expression,
) -> Result<Node, AllocError>
    requires ready { IsReady circuit.old problem.now tables.now.always tables.now.relations.items tables.now.universe (reverse env.now) }
    requires left { IsWellFormed (arities_of problem.now) (length env.now) (expression_tree a.now) }
    requires right { IsWellFormed (arities_of problem.now) (length env.now) (expression_tree b.now) }
    requires arities { arity_of (arities_of problem.now) (expression_tree a.now) ≡ arity_of (arities_of problem.now) (expression_tree b.now) }
    requires room { HasRoomFor (size circuit.old) (FormulaTermsOf problem.now (reverse env.now) (compared comparison (expression_tree a.now) (expression_tree b.now))) }
    ensures { IfOk result (λ node. IsTold circuit.old circuit.new problem.now (reverse env.now) (compared comparison (expression_tree a.now) (expression_tree b.now)) node) }
{
    match comparison {
        Comparison::In => Ok(is_within(alloc, problem, tables, env, circuit, a, b)?),
        Comparison::Equal => Ok(is_equal(alloc, problem, tables, env, circuit, a, b)?),
    }
}

// The node of an inclusion: a constant where no tuple of the first set is there.
fn is_within(
    alloc: Global,
    problem: &Problem,
    tables: &Tables,
    env: &[Atom],
    circuit: &mut Circuit,
    a: &Expression,
    b: &Expression,
) -> Result<Node, AllocError>
    requires ready { IsReady circuit.old problem.now tables.now.always tables.now.relations.items tables.now.universe (reverse env.now) }
    requires left { IsWellFormed (arities_of problem.now) (length env.now) (expression_tree a.now) }
    requires right { IsWellFormed (arities_of problem.now) (length env.now) (expression_tree b.now) }
    requires arities { arity_of (arities_of problem.now) (expression_tree a.now) ≡ arity_of (arities_of problem.now) (expression_tree b.now) }
    requires room { HasRoomFor (size circuit.old) (FormulaTermsOf problem.now (reverse env.now) (within (expression_tree a.now) (expression_tree b.now))) }
    ensures { IfOk result (λ node. IsTold circuit.old circuit.new problem.now (reverse env.now) (within (expression_tree a.now) (expression_tree b.now)) node) }
{
    let both = matrices(alloc, problem, tables, env, circuit, a, b)?;
    if is_empty(&both.left) {
        let always = constant(circuit, true)?;
        return Ok(always);
    }
    let node = both.left.subset(circuit, &both.right)?;
    Ok(node)
}

// The node of an equation: a constant where no tuple is there.
fn is_equal(
    alloc: Global,
    problem: &Problem,
    tables: &Tables,
    env: &[Atom],
    circuit: &mut Circuit,
    a: &Expression,
    b: &Expression,
) -> Result<Node, AllocError>
    requires ready { IsReady circuit.old problem.now tables.now.always tables.now.relations.items tables.now.universe (reverse env.now) }
    requires left { IsWellFormed (arities_of problem.now) (length env.now) (expression_tree a.now) }
    requires right { IsWellFormed (arities_of problem.now) (length env.now) (expression_tree b.now) }
    requires arities { arity_of (arities_of problem.now) (expression_tree a.now) ≡ arity_of (arities_of problem.now) (expression_tree b.now) }
    requires room { HasRoomFor (size circuit.old) (FormulaTermsOf problem.now (reverse env.now) (equal (expression_tree a.now) (expression_tree b.now))) }
    ensures { IfOk result (λ node. IsTold circuit.old circuit.new problem.now (reverse env.now) (equal (expression_tree a.now) (expression_tree b.now)) node) }
{
    let both = matrices(alloc, problem, tables, env, circuit, a, b)?;
    if are_empty(&both.left, &both.right) {
        let always = constant(circuit, true)?;
        return Ok(always);
    }
    let node = both.left.equal(circuit, &both.right)?;
    Ok(node)
}

// The node of a count: a constant where no tuple is there.
pub fn has_at_least(
    alloc: Global,
    problem: &Problem,
    tables: &Tables,
    env: &[Atom],
    circuit: &mut Circuit,
    n: u32,
    e: &Expression,
) -> Result<Node, AllocError>
    requires ready { IsReady circuit.old problem.now tables.now.always tables.now.relations.items tables.now.universe (reverse env.now) }
    requires formed { IsWellFormed (arities_of problem.now) (length env.now) (expression_tree e.now) }
    requires room { HasRoomFor (size circuit.old) (FormulaTermsOf problem.now (reverse env.now) (at_least n (expression_tree e.now))) }
    ensures { IfOk result (λ node. IsTold circuit.old circuit.new problem.now (reverse env.now) (at_least n (expression_tree e.now)) node) }
{
    let tuples = matrix(alloc, problem, tables, env, circuit, e)?;
    if is_empty(&tuples) {
        let few = constant(circuit, n == 0)?;
        return Ok(few);
    }
    let node = tuples.at_least(alloc, circuit, n)?;
    Ok(node)
}
