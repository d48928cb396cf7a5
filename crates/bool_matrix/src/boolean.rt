// Union, difference and meet. Where memory was wanting, nodes may be left in the circuit.
ghost use Rattle.std.specs.Prelude.{◌≡◌, ◌≤◌, ◌<◌, ◌+◌, ◌*◌, length, IfOk, OnOk};
ghost use Rattle.bool_circuit.specs.Network.{size};
ghost use Rattle.bool_circuit.specs.Value.{Extends};
ghost use Rattle.tuple_core.specs.Operators.{United, Without, Met};
ghost use Rattle.bool_matrix.specs.Entries.{IsAscending, IsCountBefore};
ghost use Rattle.bool_matrix.specs.Cells.{IsOf, ThereIn, TrueIn, IsMatrixOf};

use crate::entry::{Entry, place_of};
use crate::matrix::Matrix;
use bool_circuit::{Circuit, MOST_NODES};
use std::alloc::{AllocError, Global};
use tuple_core::Tuple;

impl Matrix {
    // The entries of both, each of this matrix behind those of the other that come before it: so each tuple goes to
    // the end.
    pub(crate) fn united(
        &self,
        alloc: Global,
        circuit: &mut Circuit,
        other: &Matrix,
    ) -> Result<Matrix, AllocError>
        requires arity { self.now.arity ≡ other.now.arity }
        requires of { IsOf circuit.old self.now }
        requires of_other { IsOf circuit.old other.now }
        requires room { size circuit.old + 16 * (length self.now.entries + length other.now.entries) < MOST_NODES }
        ensures extends { Extends circuit.old circuit.new }
        ensures is { IfOk result (λ m. IsMatrixOf circuit.new m self.now.arity (λ inputs. United (TrueIn circuit.old self.now inputs) (TrueIn circuit.old other.now inputs)) (United (ThereIn self.now) (ThereIn other.now))) }
        ensures size { OnOk result (size circuit.new ≤ size circuit.old + 16 * (length self.now.entries + length other.now.entries)) }
    {
        let mut out = Matrix::new(alloc, self.arity());
        let mut rest = other.entries();
        for entry in self.entries() {
            let (before, after) = rest.split_at(count_before(rest, &entry.tuple));
            out.add_behind(circuit, before, entry)?;
            rest = after;
        }
        out.add_all(circuit, rest)?;
        Ok(out)
    }

    // The entries of this matrix, each true where its tuple isn't in the other.
    pub(crate) fn without(
        &self,
        alloc: Global,
        circuit: &mut Circuit,
        other: &Matrix,
    ) -> Result<Matrix, AllocError>
        requires arity { self.now.arity ≡ other.now.arity }
        requires of { IsOf circuit.old self.now }
        requires of_other { IsOf circuit.old other.now }
        requires room { size circuit.old + 16 * (length self.now.entries + length other.now.entries) < MOST_NODES }
        ensures extends { Extends circuit.old circuit.new }
        ensures is { IfOk result (λ m. IsMatrixOf circuit.new m self.now.arity (λ inputs. Without (TrueIn circuit.old self.now inputs) (TrueIn circuit.old other.now inputs)) (ThereIn self.now)) }
        ensures size { OnOk result (size circuit.new ≤ size circuit.old + 16 * (length self.now.entries + length other.now.entries)) }
    {
        let mut out = Matrix::new(alloc, self.arity());
        for entry in self.entries() {
            out.add_unless(circuit, entry, other, &entry.tuple)?;
        }
        Ok(out)
    }

    // The entries of this matrix whose tuples are there in the other, each true where both nodes are.
    pub(crate) fn met(
        &self,
        alloc: Global,
        circuit: &mut Circuit,
        other: &Matrix,
    ) -> Result<Matrix, AllocError>
        requires arity { self.now.arity ≡ other.now.arity }
        requires of { IsOf circuit.old self.now }
        requires of_other { IsOf circuit.old other.now }
        requires room { size circuit.old + 16 * (length self.now.entries + length other.now.entries) < MOST_NODES }
        ensures extends { Extends circuit.old circuit.new }
        ensures is { IfOk result (λ m. IsMatrixOf circuit.new m self.now.arity (λ inputs. Met (TrueIn circuit.old self.now inputs) (TrueIn circuit.old other.now inputs)) (Met (ThereIn self.now) (ThereIn other.now))) }
        ensures size { OnOk result (size circuit.new ≤ size circuit.old + 16 * (length self.now.entries + length other.now.entries)) }
    {
        let mut out = Matrix::new(alloc, self.arity());
        for entry in self.entries() {
            out.add_if(circuit, entry, other, &entry.tuple)?;
        }
        Ok(out)
    }
}

// How many entries of a sorted list come before the tuple.
fn count_before(entries: &[Entry], tuple: &Tuple) -> usize
    requires { IsAscending entries.now }
    ensures { IsCountBefore entries.now tuple.now result }
{
    match place_of(entries, tuple) {
        Ok(place) => place,
        Err(place) => place,
    }
}
