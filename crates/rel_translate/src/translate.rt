// The circuit of a problem.
ghost use Rattle.std.specs.Prelude.{◌≡◌, ◌↔◌, ◌≤◌, ◌<◌, ◌+◌, ◌*◌, ℕ, Bool, List, Contains, length, IfOk, IsTrue};
ghost use Rattle.bool_circuit.specs.Value.{value_at};
ghost use Rattle.bool_matrix.specs.Cells.{Says};
ghost use Rattle.rel_formula.specs.Bounds.{cells_of};
ghost use Rattle.rel_formula.specs.Instance.{HoldsWhere, IsScenario, IsInstance};
ghost use Rattle.rel_terms.specs.Terms.{HasTerms, IsTranslatable};

use crate::formula::truth;
use crate::tables::Tables;
use bool_circuit::{Circuit, Node};
use rel_formula::Problem;
use std::alloc::{AllocError, Global};

/// A circuit over the cells of a problem, and the node that is true exactly at the problem's instances.
#[derive(Drop)]
pub struct ProblemCircuit {
    /// Its input `i` is the cell of number `i`.
    pub circuit: Circuit,
    /// The node that says whether the problem's formula is true.
    pub node: Node,
}

/// The circuit of a problem that has at most 64 atoms, top-level signatures with disjoint upper sets, and at most 262,144
/// terms. The node is true exactly where the scenario of the cells whose inputs are true is an instance. Beside a node for
/// each cell and two constants the circuit has at most 16 nodes for each term. The error comes only for want of memory.
pub fn circuit_of(alloc: Global, problem: &Problem) -> Result<ProblemCircuit, AllocError>
    requires { IsTranslatable problem.now }
    ensures inputs { IfOk result (λ made. made.circuit.inputs ≡ length (cells_of problem.now)) }
    ensures value { IfOk result (λ made. Says made.circuit made.node (λ inputs. HoldsWhere problem.now (λ n. IsTrue (inputs n)))) }
    ensures instances { IfOk result (λ made. (s : List ℕ) (inputs : ℕ → Bool) → IsScenario problem.now s
        → ((n : ℕ) → n < length (cells_of problem.now) → IsTrue (inputs n) ↔ Contains s n)
        → IsTrue (value_at made.circuit made.node inputs) ↔ IsInstance problem.now s) }
    ensures nodes { IfOk result (λ made. (t : ℕ) → HasTerms problem.now t → length made.circuit.shapes ≤ length (cells_of problem.now) + 2 + 16 * t) }
{
    let mut circuit = Circuit::new(alloc, problem.cells());
    let tables = Tables::of(alloc, problem, &mut circuit)?;
    let mut env = Vec::new(alloc);
    let node = truth(
        alloc,
        problem,
        &tables,
        &mut env,
        &mut circuit,
        problem.formula(),
    )?;
    Ok(ProblemCircuit { circuit, node })
}
