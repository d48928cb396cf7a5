// Join, product and transposition. Where memory was wanting, nodes may be left in the circuit.
ghost use Rattle.std.specs.Prelude.{◌≡◌, ◌≤◌, ◌<◌, ◌+◌, ◌-◌, ◌*◌, length, IfOk, OnOk};
ghost use Rattle.bool_matrix.specs.Terms.{tuples, joins};
ghost use Rattle.bool_circuit.specs.Network.{Network, size};
ghost use Rattle.bool_circuit.specs.Value.{Extends};
ghost use Rattle.tuple_core.specs.Operators.{Joined, Multiplied, Transposed};
ghost use Rattle.bool_matrix.specs.Cells.{IsCells, IsOf, ThereIn, TrueIn, IsMatrixOf};

use crate::matrix::Matrix;
use bool_circuit::{Circuit, MOST_NODES};
use std::alloc::{AllocError, Global};

impl Matrix {
    // The pairs turned round.
    pub(crate) fn transposed(&self, alloc: Global) -> Result<Matrix, AllocError>
        requires { self.now.arity ≡ 2 }
        ensures well { IfOk result (λ m. IsCells m) }
        ensures is { IfOk result (λ m. (network : Network) → IsOf network self.now → IsMatrixOf network m 2 (λ inputs. Transposed (TrueIn network self.now inputs)) (Transposed (ThereIn self.now))) }
    {
        let mut out = Matrix::new(alloc, 2);
        for entry in self.entries() {
            out.put(entry.tuple.transpose(), entry.node)?;
        }
        let _ = out.entries(); // for the proof
        Ok(out)
    }

    // What each entry of this matrix joins to with those of the other.
    pub(crate) fn joined(
        &self,
        alloc: Global,
        circuit: &mut Circuit,
        other: &Matrix,
    ) -> Result<Matrix, AllocError>
        requires low { 3 ≤ self.now.arity + other.now.arity }
        requires high { self.now.arity + other.now.arity ≤ 5 }
        requires of { IsOf circuit.old self.now }
        requires of_other { IsOf circuit.old other.now }
        requires room { size circuit.old + 16 * joins (tuples self.now) (tuples other.now) < MOST_NODES }
        ensures extends { Extends circuit.old circuit.new }
        ensures is { IfOk result (λ m. IsMatrixOf circuit.new m (self.now.arity + other.now.arity - 2) (λ inputs. Joined (TrueIn circuit.old self.now inputs) (TrueIn circuit.old other.now inputs)) (Joined (ThereIn self.now) (ThereIn other.now))) }
        ensures size { OnOk result (size circuit.new ≤ size circuit.old + 16 * joins (tuples self.now) (tuples other.now)) }
    {
        let mut out = Matrix::new(alloc, self.arity() + other.arity() - 2);
        for left in self.entries() {
            out.add_joins(circuit, left, other.entries())?;
        }
        Ok(out)
    }

    // Each entry of this matrix followed by each of the other.
    pub(crate) fn multiplied(
        &self,
        alloc: Global,
        circuit: &mut Circuit,
        other: &Matrix,
    ) -> Result<Matrix, AllocError>
        requires arity { self.now.arity + other.now.arity ≤ 3 }
        requires of { IsOf circuit.old self.now }
        requires of_other { IsOf circuit.old other.now }
        requires room { size circuit.old + 16 * (length self.now.entries * length other.now.entries) < MOST_NODES }
        ensures extends { Extends circuit.old circuit.new }
        ensures is { IfOk result (λ m. IsMatrixOf circuit.new m (self.now.arity + other.now.arity) (λ inputs. Multiplied (TrueIn circuit.old self.now inputs) (TrueIn circuit.old other.now inputs)) (Multiplied (ThereIn self.now) (ThereIn other.now))) }
        ensures size { OnOk result (size circuit.new ≤ size circuit.old + 16 * (length self.now.entries * length other.now.entries)) }
    {
        let mut out = Matrix::new(alloc, self.arity() + other.arity());
        for left in self.entries() {
            out.add_products(circuit, left, other.entries())?;
        }
        Ok(out)
    }
}
