// Restriction of the first or the last atom, and override. Where memory was wanting, nodes may be left in the circuit.
ghost use Rattle.std.specs.Prelude.{◌≡◌, ◌≤◌, ◌<◌, ◌+◌, ◌*◌, length, IfOk, OnOk};
ghost use Rattle.bool_circuit.specs.Network.{size};
ghost use Rattle.bool_circuit.specs.Value.{Extends};
ghost use Rattle.tuple_core.specs.Operators.{United, Overridden, DomainIn, RangeIn};
ghost use Rattle.bool_matrix.specs.Cells.{IsOf, ThereIn, TrueIn, FirstsOf, IsMatrixOf};

use crate::matrix::Matrix;
use bool_circuit::{Circuit, MOST_NODES};
use std::alloc::{AllocError, Global};
use tuple_core::Tuple;

impl Matrix {
    // The entries whose first atom is there, each true where both nodes are.
    pub(crate) fn domain_in(
        &self,
        alloc: Global,
        circuit: &mut Circuit,
        atoms: &Matrix,
    ) -> Result<Matrix, AllocError>
        requires arity { atoms.now.arity ≡ 1 }
        requires of { IsOf circuit.old self.now }
        requires of_atoms { IsOf circuit.old atoms.now }
        requires room { size circuit.old + 16 * length self.now.entries < MOST_NODES }
        ensures extends { Extends circuit.old circuit.new }
        ensures is { IfOk result (λ m. IsMatrixOf circuit.new m self.now.arity (λ inputs. DomainIn (TrueIn circuit.old atoms.now inputs) (TrueIn circuit.old self.now inputs)) (DomainIn (ThereIn atoms.now) (ThereIn self.now))) }
        ensures size { OnOk result (size circuit.new ≤ size circuit.old + 16 * length self.now.entries) }
    {
        let mut out = Matrix::new(alloc, self.arity());
        for entry in self.entries() {
            out.add_if(circuit, entry, atoms, &Tuple::single(entry.tuple.first()))?;
        }
        Ok(out)
    }

    // The entries whose last atom is there, each true where both nodes are.
    pub(crate) fn range_in(
        &self,
        alloc: Global,
        circuit: &mut Circuit,
        atoms: &Matrix,
    ) -> Result<Matrix, AllocError>
        requires arity { atoms.now.arity ≡ 1 }
        requires of { IsOf circuit.old self.now }
        requires of_atoms { IsOf circuit.old atoms.now }
        requires room { size circuit.old + 16 * length self.now.entries < MOST_NODES }
        ensures extends { Extends circuit.old circuit.new }
        ensures is { IfOk result (λ m. IsMatrixOf circuit.new m self.now.arity (λ inputs. RangeIn (TrueIn circuit.old self.now inputs) (TrueIn circuit.old atoms.now inputs)) (RangeIn (ThereIn self.now) (ThereIn atoms.now))) }
        ensures size { OnOk result (size circuit.new ≤ size circuit.old + 16 * length self.now.entries) }
    {
        let mut out = Matrix::new(alloc, self.arity());
        for entry in self.entries() {
            out.add_if(circuit, entry, atoms, &Tuple::single(entry.tuple.last()))?;
        }
        Ok(out)
    }

    // The entries of the other matrix, and those of this one, each true where its first atom is first in no pair of
    // the other.
    pub(crate) fn overridden(
        &self,
        alloc: Global,
        circuit: &mut Circuit,
        other: &Matrix,
    ) -> Result<Matrix, AllocError>
        requires left { self.now.arity ≡ 2 }
        requires right { other.now.arity ≡ 2 }
        requires of { IsOf circuit.old self.now }
        requires of_other { IsOf circuit.old other.now }
        requires room { size circuit.old + 16 * (length self.now.entries + 2 * length other.now.entries) < MOST_NODES }
        ensures extends { Extends circuit.old circuit.new }
        ensures is { IfOk result (λ m. IsMatrixOf circuit.new m 2 (λ inputs. Overridden (TrueIn circuit.old self.now inputs) (TrueIn circuit.old other.now inputs)) (United (ThereIn self.now) (ThereIn other.now))) }
        ensures size { OnOk result (size circuit.new ≤ size circuit.old + 16 * (length self.now.entries + 2 * length other.now.entries)) }
    {
        let firsts = other.firsts(alloc, circuit)?;
        let mut out = other.copy(alloc)?;
        for entry in self.entries() {
            out.add_unless(circuit, entry, &firsts, &Tuple::single(entry.tuple.first()))?;
        }
        Ok(out)
    }

    // The first atoms of the tuples.
    fn firsts(&self, alloc: Global, circuit: &mut Circuit) -> Result<Matrix, AllocError>
        requires of { IsOf circuit.old self.now }
        requires room { size circuit.old + length self.now.entries < MOST_NODES }
        ensures extends { Extends circuit.old circuit.new }
        ensures is { IfOk result (λ m. IsMatrixOf circuit.new m 1 (λ inputs. FirstsOf (TrueIn circuit.old self.now inputs)) (FirstsOf (ThereIn self.now))) }
        ensures size { OnOk result (size circuit.new ≤ size circuit.old + length self.now.entries) }
    {
        let mut out = Matrix::new(alloc, 1);
        for entry in self.entries() {
            out.add(circuit, Tuple::single(entry.tuple.first()), entry.node)?;
        }
        Ok(out)
    }
}
