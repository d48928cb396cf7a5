// The matrices of the relations and of the universe.
ghost use Rattle.std.specs.Prelude.{◌≡◌, ◌≤◌, ◌<◌, ◌+◌, ℕ, true, [], List, All, AllPairs, Contains, length, slice_index_or, IfOk, OnOk};
ghost use Rattle.tuple_core.specs.Gains.{Gains, SomeGives};
ghost use Rattle.bool_circuit.specs.Network.{Network, size};
ghost use Rattle.bool_circuit.specs.Value.{Extends, Stands};
ghost use Rattle.bool_matrix.specs.Cells.{Cells, IsOf, AtEntry, TrueAt, ThereIn, MatrixGains};
ghost use Rattle.bool_matrix.specs.Entries.{IsAscending};
ghost use Rattle.rel_formula.specs.Bounds.{IsProblem, HasDisjointTops, cells_of};
ghost use Rattle.rel_translate.specs.Tables.{AreLeaves, IsRelationOf, IsUniverseOf, AreTables};

use crate::leaves::relation;
use bool_circuit::{Circuit, MOST_NODES, Node};
use bool_matrix::{Entry, Matrix};
use rel_formula::Problem;
use std::alloc::{AllocError, Global};

// A node that is always true, the matrix of each relation by its number, and that of what the top-level signatures have
// together.
#[derive(Drop)]
pub struct Tables {
    pub always: Node,
    pub relations: Vec<Matrix>,
    pub universe: Matrix,
}

impl Tables {
    // The tables of a problem, in a circuit that has no node so far. It makes a node for each cell and a constant.
    pub fn of(alloc: Global, problem: &Problem, circuit: &mut Circuit) -> Result<Tables, AllocError>
        requires empty { circuit.old.shapes ≡ [] }
        requires inputs { circuit.old.inputs ≡ length (cells_of problem.now) }
        requires disjoint { HasDisjointTops problem.now }
        ensures inputs { IfOk result (λ _. circuit.new.inputs ≡ length (cells_of problem.now)) }
        ensures tables { IfOk result (λ tables. AreTables circuit.new problem.now tables.always tables.relations.items tables.universe) }
        ensures size { OnOk result (size circuit.new ≤ length (cells_of problem.now) + 2) }
        ensures problem { IsProblem problem.now }
    {
        let _ = problem.relations(); // for the proof
        let always = circuit.constant(true)?;
        let inputs = all_inputs(alloc, circuit, problem.cells())?;
        let relations = all_relations(alloc, problem, always, &inputs)?;
        let universe = universe(alloc, problem, always, &inputs, &relations)?;
        Ok(Tables {
            always,
            relations,
            universe,
        })
    }
}

// The nodes of all inputs, in order.
fn all_inputs(alloc: Global, circuit: &mut Circuit, count: u32) -> Result<Vec<Node>, AllocError>
    requires count { count ≡ circuit.old.inputs }
    requires room { size circuit.old + count < MOST_NODES }
    ensures extends { Extends circuit.old circuit.new }
    ensures count { IfOk result (λ nodes. length nodes.items ≡ count) }
    ensures each { IfOk result (λ nodes. (n d : ℕ) → n < length nodes.items → Stands circuit.new (slice_index_or nodes.items n d) (λ s. s n)) }
    ensures size { OnOk result (size circuit.new ≤ size circuit.old + count) }
{
    let mut nodes = Vec::new(alloc);
    for number in 0..count {
        let node = circuit.input(number)?;
        nodes.push(node)?;
    }
    Ok(nodes)
}

// The matrix of each relation, by its number.
fn all_relations(
    alloc: Global,
    problem: &Problem,
    always: Node,
    inputs: &[Node],
) -> Result<Vec<Matrix>, AllocError>
    requires count { length inputs.now ≡ length (cells_of problem.now) }
    ensures count { IfOk result (λ ms. length ms.items ≡ length problem.now.relations) }
    ensures each { IfOk result (λ ms. (network : Network) → AreLeaves network problem.now always inputs.now → (r : ℕ) (d : Cells) → r < length ms.items → IsRelationOf network problem.now r (slice_index_or ms.items r d)) }
{
    let mut matrices = Vec::new(alloc);
    for number in 0..problem.relations().len() {
        let matrix = relation(alloc, problem, always, inputs, number)?;
        matrices.push(matrix)?;
    }
    Ok(matrices)
}

// What the top-level signatures have together. No tuple is in two of them, so this takes no gates.
fn universe(
    alloc: Global,
    problem: &Problem,
    always: Node,
    inputs: &[Node],
    relations: &[Matrix],
) -> Result<Matrix, AllocError>
    requires disjoint { HasDisjointTops problem.now }
    requires leaves { (network : Network) × AreLeaves network problem.now always inputs.now }
    requires count { length relations.now ≡ length problem.now.relations }
    requires each { (network : Network) → AreLeaves network problem.now always inputs.now → (r : ℕ) (d : Cells) → r < length relations.now → IsRelationOf network problem.now r (slice_index_or relations.now r d) }
    ensures { IfOk result (λ m. (network : Network) → AreLeaves network problem.now always inputs.now → IsUniverseOf network problem.now m) }
{
    let _ = problem.relations(); // for the proof
    let mut out = Matrix::new(alloc, 1);
    for top in problem.tops() {
        put_all(&mut out, relations[*top as usize].entries())?;
    }
    let _ = out.entries(); // for the proof
    Ok(out)
}

// Puts in these tuples with their nodes.
fn put_all(out: &mut Matrix, entries: &[Entry]) -> Result<(), AllocError>
    requires arities { All (λ e. length e.tuple ≡ out.old.arity) entries.now }
    requires ascending { IsAscending entries.now }
    requires absent { All (λ e. ThereIn out.old e.tuple → ⊥) entries.now }
    ensures arity { OnOk result (out.new.arity ≡ out.old.arity) }
    ensures there { OnOk result (Gains (ThereIn out.old) (ThereIn out.new) (SomeGives entries.now AtEntry)) }
    ensures gains { OnOk result ((network : Network) → IsOf network out.old → All (λ e. e.node < length network.shapes) entries.now → MatrixGains network network out.old out.new (λ s. SomeGives entries.now (TrueAt network s)) (SomeGives entries.now AtEntry)) }
{
    for entry in entries {
        out.put(entry.tuple.copy(), entry.node)?;
    }
    Ok(())
}
