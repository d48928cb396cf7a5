// Which nodes of a circuit an output rests on.
ghost use Rattle.std.specs.Prelude.{◌≡◌, ◌<◌, ◌↔◌, ◌⊎◌, ℕ, length, IfOk, IsTrue};
ghost use Rattle.bool_circuit.specs.Network.{ReadsBelow};
ghost use Rattle.bool_circuit.specs.Value.{place};
ghost use Rattle.circuit_cnf.specs.Resting.{Reads};
ghost use Rattle.circuit_cnf.specs.Encoding.{AreMarks};

use bool_circuit::{Circuit, Node, Shape};
use std::alloc::{AllocError, Global};

/// A mark for each node: true at exactly those that the output rests on.
pub(crate) fn marks_of(
    alloc: Global,
    circuit: &Circuit,
    output: Node,
) -> Result<Vec<bool>, AllocError>
    requires { output < length circuit.now.shapes }
    ensures { IfOk result (λ marks. AreMarks circuit.now output marks.items) }
{
    let mut marks = vec![in alloc; false; circuit.len() as usize]?;
    marks[output.place() as usize] = true;
    for i in (0..circuit.len()).rev() {
        mark_operands(&mut marks, i as usize, circuit.at(i));
    }
    Ok(marks)
}

// Marks the nodes that this one reads, where it is marked itself.
fn mark_operands(marks: &mut [bool], i: usize, shape: Shape)
    requires node { i < length marks.old }
    requires before { (inputs : ℕ) × ReadsBelow inputs i shape }
    ensures count { length marks.new ≡ length marks.old }
    ensures marked { (m : ℕ) → IsTrue (place marks.new m) ↔ (IsTrue (place marks.old m) ⊎ (IsTrue (place marks.old i) × Reads shape m)) }
{
    if !marks[i] {
        return;
    }
    match shape {
        Shape::Constant(_) | Shape::Input(_) => {}
        Shape::Not(a) => marks[a.place() as usize] = true,
        Shape::And(a, b) | Shape::Or(a, b) => {
            marks[a.place() as usize] = true;
            marks[b.place() as usize] = true;
        }
    }
}
