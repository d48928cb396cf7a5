// The matrices of the expressions without operands.
ghost use Rattle.std.specs.Prelude.{◌≡◌, ◌<◌, ℕ, true, [], ◌∷◌, List, Contains, length, IfOk, IsTrue};
ghost use Rattle.tuple_core.specs.declared.atom.Atom.{Atom as AtomRecord};
ghost use Rattle.bool_circuit.specs.Network.{Network};
ghost use Rattle.bool_circuit.specs.Value.{Stands};
ghost use Rattle.bool_matrix.specs.Cells.{IsOf, ThereIn, TrueIn, Says};
ghost use Rattle.rel_formula.specs.Bounds.{IsProblem, relation_at, cells_of};
ghost use Rattle.rel_formula.specs.Instance.{InRelation};
ghost use Rattle.rel_translate.specs.Tables.{IsWell, AreLeaves, IsRelationOf};

use bool_circuit::Node;
use bool_matrix::Matrix;
use rel_formula::{Cell, Problem};
use std::alloc::{AllocError, Global};
use tuple_core::{Atom, Tuple};

// The node of a tuple that relation `number` may have: that of its cell's input, or the constant where it must have it.
fn node_of(problem: &Problem, always: Node, inputs: &[Node], number: usize, tuple: &Tuple) -> Node
    requires problem { IsProblem problem.now }
    requires count { length inputs.now ≡ length (cells_of problem.now) }
    requires number { number < length problem.now.relations }
    requires upper { Contains (relation_at problem.now.relations number).upper.rows tuple.now }
    ensures { (network : Network) → AreLeaves network problem.now always inputs.now → Says network result (λ s. InRelation problem.now (λ n. IsTrue (s n)) number tuple.now) }
{
    let cell = Cell {
        relation: number as u8,
        tuple: tuple.copy(),
    };
    match problem.number_of(&cell) {
        Some(place) => inputs[place as usize],
        None => always,
    }
}

// The matrix of relation `number`.
pub fn relation(
    alloc: Global,
    problem: &Problem,
    always: Node,
    inputs: &[Node],
    number: usize,
) -> Result<Matrix, AllocError>
    requires problem { IsProblem problem.now }
    requires count { length inputs.now ≡ length (cells_of problem.now) }
    requires number { number < length problem.now.relations }
    ensures { IfOk result (λ m. (network : Network) → AreLeaves network problem.now always inputs.now → IsRelationOf network problem.now number m) }
{
    let relations = problem.relations();
    let upper = &relations[number].upper;
    let mut out = Matrix::new(alloc, upper.arity());
    for tuple in upper.rows() {
        let node = node_of(problem, always, inputs, number, tuple);
        out.put(tuple.copy(), node)?;
    }
    let _ = out.entries(); // for the proof
    Ok(out)
}

// The matrix of this atom alone.
pub fn single(alloc: Global, always: Node, atom: Atom) -> Result<Matrix, AllocError>
    ensures { IfOk result (λ m. (network : Network) → Stands network always (λ s. true) → IsWell network m 1 (λ s t. t ≡ atom ∷ []) (λ t. t ≡ atom ∷ [])) }
{
    let mut out = Matrix::new(alloc, 1);
    out.put(Tuple::single(atom), always)?;
    let _ = out.entries(); // for the proof
    Ok(out)
}

// The matrix of no atom.
pub fn nothing(alloc: Global) -> Matrix
    ensures { (network : Network) → IsWell network result 1 (λ s t. ⊥) (λ t. ⊥) }
{
    let out = Matrix::new(alloc, 1);
    let _ = out.entries(); // for the proof
    out
}

// Each atom of a matrix beside itself.
pub fn identity(alloc: Global, atoms: &Matrix) -> Result<Matrix, AllocError>
    requires { atoms.now.arity ≡ 1 }
    ensures { IfOk result (λ m. (network : Network) → IsOf network atoms.now → IsWell network m 2 (λ s t. (a : AtomRecord) × TrueIn network atoms.now s (a ∷ []) × (t ≡ a ∷ a ∷ [])) (λ t. (a : AtomRecord) × ThereIn atoms.now (a ∷ []) × (t ≡ a ∷ a ∷ []))) }
{
    let mut out = Matrix::new(alloc, 2);
    for entry in atoms.entries() {
        let atom = entry.tuple.first();
        out.put(Tuple::of(&[atom, atom]), entry.node)?;
    }
    let _ = out.entries(); // for the proof
    Ok(out)
}
