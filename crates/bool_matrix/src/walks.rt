// The transitive closure. Where memory was wanting, nodes may be left in the circuit.
ghost use Rattle.std.specs.Prelude.{◌≡◌, ◌≤◌, ◌<◌, ◌+◌, ◌*◌, IfOk, OnOk};
ghost use Rattle.bool_matrix.specs.Terms.{tuples, joins};
ghost use Rattle.bool_circuit.specs.Network.{size};
ghost use Rattle.bool_circuit.specs.Value.{Extends};
ghost use Rattle.tuple_core.specs.Operators.{United, Joined, Closed};
ghost use Rattle.bool_matrix.specs.Closure.{HasFewAtoms, HasRoom};
ghost use Rattle.bool_matrix.specs.Cells.{IsOf, ThereIn, TrueIn, IsMatrixOf};

use crate::matrix::Matrix;
use bool_circuit::{Circuit, MOST_NODES};
use std::alloc::{AllocError, Global};
use tuple_core::Atom;

impl Matrix {
    // The pairs with a walk of one or more pairs of this matrix from the first atom to the second.
    //
    // Each squaring doubles the length of the walks, until it reaches the number of atoms that begin a pair: a
    // shortest walk is no longer than that.
    pub(crate) fn closed(&self, alloc: Global, circuit: &mut Circuit) -> Result<Matrix, AllocError>
        requires arity { self.now.arity ≡ 2 }
        requires of { IsOf circuit.old self.now }
        requires atoms { HasFewAtoms 64 (ThereIn self.now) }
        requires room { HasRoom (size circuit.old) MOST_NODES (Closed (ThereIn self.now)) }
        ensures extends { Extends circuit.old circuit.new }
        ensures is { IfOk result (λ m. IsMatrixOf circuit.new m 2 (λ inputs. Closed (TrueIn circuit.old self.now inputs)) (Closed (ThereIn self.now))) }
        ensures size { IfOk result (λ m. size circuit.new ≤ size circuit.old + 16 * (6 * joins (tuples m) (tuples m))) }
    {
        let _ = self.entries(); // for the proof
        let mut left = self.first_count();
        let mut walks = self.copy(alloc)?;
        for step in 0..6u32 {
            if left <= 1 {
                return Ok(walks);
            }
            walks = walks.squared(alloc, circuit)?;
            left -= left / 2;
        }
        Ok(walks)
    }

    // The pairs of this matrix, and those that two of them join to. The arity is 2.
    fn squared(&self, alloc: Global, circuit: &mut Circuit) -> Result<Matrix, AllocError>
        requires arity { self.now.arity ≡ 2 }
        requires of { IsOf circuit.old self.now }
        requires room { size circuit.old + 2 * joins (tuples self.now) (tuples self.now) < MOST_NODES }
        ensures extends { Extends circuit.old circuit.new }
        ensures is { IfOk result (λ m. IsMatrixOf circuit.new m 2 (λ inputs. United (TrueIn circuit.old self.now inputs) (Joined (TrueIn circuit.old self.now inputs) (TrueIn circuit.old self.now inputs))) (United (ThereIn self.now) (Joined (ThereIn self.now) (ThereIn self.now)))) }
        ensures size { OnOk result (size circuit.new ≤ size circuit.old + 2 * joins (tuples self.now) (tuples self.now)) }
    {
        let mut out = self.copy(alloc)?;
        for left in self.entries() {
            out.add_joins(circuit, left, self.entries())?;
        }
        Ok(out)
    }

    // How many atoms begin a tuple.
    fn first_count(&self) -> usize
        ensures { HasFewAtoms result (ThereIn self.now) }
    {
        let mut count = 0;
        let mut last = Atom { top: 0, place: 0 };
        for entry in self.entries() {
            let first = entry.tuple.first();
            if count == 0 || first != last {
                count += 1;
            }
            last = first;
        }
        count
    }
}
