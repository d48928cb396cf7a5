// Whether two matrices have the same tuples, or the one those of the other.
ghost use Rattle.std.specs.Prelude.{◌≡◌, ◌≤◌, ◌<◌, ◌+◌, ◌*◌, length, IfOk, OnOk, OnErr, IsTrue};
ghost use Rattle.bool_circuit.specs.Network.{size};
ghost use Rattle.bool_circuit.specs.Value.{value_at, Extends};
ghost use Rattle.bool_matrix.specs.Cells.{IsOf, TrueIn, IsWithin, Says};

use crate::matrix::Matrix;
use crate::undo::undo;
use bool_circuit::{Circuit, MOST_NODES, Node};
use std::alloc::{AllocError, Global};
use tuple_core::Tuple;

impl Matrix {
    /// A node that is true where each tuple of this matrix is in the other. The arities are equal. It makes at
    /// most 3 nodes for each tuple of this matrix.
    pub fn subset(&self, circuit: &mut Circuit, other: &Matrix) -> Result<Node, AllocError>
        requires arity { self.now.arity ≡ other.now.arity }
        requires of { IsOf circuit.old self.now }
        requires of_other { IsOf circuit.old other.now }
        requires room { size circuit.old + 16 * length self.now.entries < MOST_NODES }
        ensures extends { Extends circuit.old circuit.new }
        ensures says { IfOk result (λ n. Says circuit.new n (λ inputs. IsWithin (TrueIn circuit.old self.now inputs) (TrueIn circuit.old other.now inputs))) }
        ensures size { OnOk result (size circuit.new ≤ size circuit.old + 3 * length self.now.entries) }
        ensures err { OnErr result (circuit.new ≡ circuit.old) }
    {
        let len = circuit.len();
        match self.within(circuit, other) {
            Ok(made) => Ok(made),
            Err(error) => {
                undo(circuit, len);
                Err(error)
            }
        }
    }

    /// A node that is true where the two matrices have the same tuples. The arities are equal. It makes at most 3
    /// nodes for each tuple of both.
    pub fn equal(&self, circuit: &mut Circuit, other: &Matrix) -> Result<Node, AllocError>
        requires arity { self.now.arity ≡ other.now.arity }
        requires of { IsOf circuit.old self.now }
        requires of_other { IsOf circuit.old other.now }
        requires room { size circuit.old + 16 * (length self.now.entries + length other.now.entries) < MOST_NODES }
        ensures extends { Extends circuit.old circuit.new }
        ensures says { IfOk result (λ n. Says circuit.new n (λ inputs. IsWithin (TrueIn circuit.old self.now inputs) (TrueIn circuit.old other.now inputs) × IsWithin (TrueIn circuit.old other.now inputs) (TrueIn circuit.old self.now inputs))) }
        ensures size { OnOk result (size circuit.new ≤ size circuit.old + 3 * (length self.now.entries + length other.now.entries)) }
        ensures err { OnErr result (circuit.new ≡ circuit.old) }
    {
        let len = circuit.len();
        match self.equal_to(circuit, other) {
            Ok(made) => Ok(made),
            Err(error) => {
                undo(circuit, len);
                Err(error)
            }
        }
    }

    // A node that is true where each tuple of this matrix is in the other.
    fn within(&self, circuit: &mut Circuit, other: &Matrix) -> Result<Node, AllocError>
        requires arity { self.now.arity ≡ other.now.arity }
        requires of { IsOf circuit.old self.now }
        requires of_other { IsOf circuit.old other.now }
        requires room { size circuit.old + 16 * length self.now.entries < MOST_NODES }
        ensures extends { Extends circuit.old circuit.new }
        ensures says { IfOk result (λ n. Says circuit.new n (λ inputs. IsWithin (TrueIn circuit.old self.now inputs) (TrueIn circuit.old other.now inputs))) }
        ensures size { OnOk result (size circuit.new ≤ size circuit.old + 3 * length self.now.entries) }
    {
        let start = circuit.constant(true)?;
        let all = self.all_within(circuit, start, other)?;
        Ok(all)
    }

    // A node that is true where each tuple of either matrix is in the other.
    fn equal_to(&self, circuit: &mut Circuit, other: &Matrix) -> Result<Node, AllocError>
        requires arity { self.now.arity ≡ other.now.arity }
        requires of { IsOf circuit.old self.now }
        requires of_other { IsOf circuit.old other.now }
        requires room { size circuit.old + 16 * (length self.now.entries + length other.now.entries) < MOST_NODES }
        ensures extends { Extends circuit.old circuit.new }
        ensures says { IfOk result (λ n. Says circuit.new n (λ inputs. IsWithin (TrueIn circuit.old self.now inputs) (TrueIn circuit.old other.now inputs) × IsWithin (TrueIn circuit.old other.now inputs) (TrueIn circuit.old self.now inputs))) }
        ensures size { OnOk result (size circuit.new ≤ size circuit.old + 3 * (length self.now.entries + length other.now.entries)) }
    {
        let start = circuit.constant(true)?;
        let there = self.all_within(circuit, start, other)?;
        let both = other.all_within(circuit, there, self)?;
        Ok(both)
    }

    // A node that is true where `node` isn't, or the tuple is in this matrix.
    fn node_within(
        &self,
        circuit: &mut Circuit,
        node: Node,
        tuple: &Tuple,
    ) -> Result<Node, AllocError>
        requires node { node < length circuit.old.shapes }
        requires of { IsOf circuit.old self.now }
        requires room { size circuit.old + 1 < MOST_NODES }
        ensures extends { Extends circuit.old circuit.new }
        ensures says { IfOk result (λ n. Says circuit.new n (λ inputs. IsTrue (value_at circuit.old node inputs) → TrueIn circuit.old self.now inputs tuple.now)) }
        ensures size { size circuit.new ≤ size circuit.old + 2 }
    {
        let _ = self.entries(); // for the proof
        match self.node(tuple) {
            Some(other) => {
                let absent = circuit.not(node)?;
                let either = circuit.or(absent, other)?;
                Ok(either)
            }
            None => {
                let absent = circuit.not(node)?;
                Ok(absent)
            }
        }
    }

    // A node that is true where `start` is and each tuple of this matrix is in the other.
    fn all_within(
        &self,
        circuit: &mut Circuit,
        start: Node,
        other: &Matrix,
    ) -> Result<Node, AllocError>
        requires start { start < length circuit.old.shapes }
        requires of { IsOf circuit.old self.now }
        requires of_other { IsOf circuit.old other.now }
        requires room { size circuit.old + 3 * length self.now.entries < MOST_NODES }
        ensures extends { Extends circuit.old circuit.new }
        ensures says { IfOk result (λ n. Says circuit.new n (λ inputs. IsTrue (value_at circuit.old start inputs) × IsWithin (TrueIn circuit.old self.now inputs) (TrueIn circuit.old other.now inputs))) }
        ensures size { OnOk result (size circuit.new ≤ size circuit.old + 3 * length self.now.entries) }
    {
        let mut all = start;
        for entry in self.entries() {
            let within = other.node_within(circuit, entry.node, &entry.tuple)?;
            all = circuit.and(all, within)?;
        }
        Ok(all)
    }
}
