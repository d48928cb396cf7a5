// What the operators make of matrices.
ghost use Rattle.std.specs.Prelude.{◌≡◌, ◌≤◌, ◌<◌, ◌+◌, ◌*◌, IfOk, OnOk, OnErr};
ghost use Rattle.bool_circuit.specs.Network.{size};
ghost use Rattle.bool_circuit.specs.Value.{Extends};
ghost use Rattle.tuple_core.specs.Operators.{combined, may_combine, turned, arity_with, Fit};
ghost use Rattle.bool_matrix.specs.Work.{combine_work, turn_work, MayTurn};
ghost use Rattle.bool_matrix.specs.Cells.{IsCells, IsOf, ThereIn, TrueIn, IsMatrixOf};

use crate::matrix::Matrix;
use crate::undo::undo;
use bool_circuit::{Circuit, MOST_NODES};
use std::alloc::{AllocError, Global};
use tuple_core::{Operator, UnaryOperator};

impl Matrix {
    /// What the operator makes of this matrix and the other. It makes at most 16 nodes for each piece of its work.
    pub fn combine(
        &self,
        alloc: Global,
        circuit: &mut Circuit,
        operator: Operator,
        other: &Matrix,
    ) -> Result<Matrix, AllocError>
        requires fit { Fit operator self.now.arity other.now.arity }
        requires of { IsOf circuit.old self.now }
        requires of_other { IsOf circuit.old other.now }
        requires room { size circuit.old + 16 * combine_work operator self.now other.now < MOST_NODES }
        ensures well { IfOk result (λ m. IsCells m) }
        ensures extends { Extends circuit.old circuit.new }
        ensures is { IfOk result (λ m. IsMatrixOf circuit.new m (arity_with operator self.now.arity other.now.arity) (λ inputs. combined operator (TrueIn circuit.old self.now inputs) (TrueIn circuit.old other.now inputs)) (may_combine operator (ThereIn self.now) (ThereIn other.now))) }
        ensures size { OnOk result (size circuit.new ≤ size circuit.old + 16 * combine_work operator self.now other.now) }
        ensures err { OnErr result (circuit.new ≡ circuit.old) }
    {
        let len = circuit.len();
        match self.combined_with(alloc, circuit, operator, other) {
            Ok(made) => {
                let _ = made.entries(); // for the proof
                Ok(made)
            }
            Err(error) => {
                undo(circuit, len);
                Err(error)
            }
        }
    }

    /// What the operator makes of the pairs of this matrix. It makes at most 16 nodes for each piece of its work.
    pub fn turn(
        &self,
        alloc: Global,
        circuit: &mut Circuit,
        operator: UnaryOperator,
    ) -> Result<Matrix, AllocError>
        requires arity { self.now.arity ≡ 2 }
        requires of { IsOf circuit.old self.now }
        requires may { MayTurn operator (size circuit.old) MOST_NODES (ThereIn self.now) }
        ensures well { IfOk result (λ m. IsCells m) }
        ensures extends { Extends circuit.old circuit.new }
        ensures is { IfOk result (λ m. IsMatrixOf circuit.new m 2 (λ inputs. turned operator (TrueIn circuit.old self.now inputs)) (turned operator (ThereIn self.now))) }
        ensures size { IfOk result (λ m. size circuit.new ≤ size circuit.old + 16 * turn_work operator m) }
        ensures err { OnErr result (circuit.new ≡ circuit.old) }
    {
        let len = circuit.len();
        match self.turned_by(alloc, circuit, operator) {
            Ok(made) => {
                let _ = made.entries(); // for the proof
                Ok(made)
            }
            Err(error) => {
                undo(circuit, len);
                Err(error)
            }
        }
    }

    // What the operator makes of this matrix and the other; an error may leave nodes.
    fn combined_with(
        &self,
        alloc: Global,
        circuit: &mut Circuit,
        operator: Operator,
        other: &Matrix,
    ) -> Result<Matrix, AllocError>
        requires fit { Fit operator self.now.arity other.now.arity }
        requires of { IsOf circuit.old self.now }
        requires of_other { IsOf circuit.old other.now }
        requires room { size circuit.old + 16 * combine_work operator self.now other.now < MOST_NODES }
        ensures extends { Extends circuit.old circuit.new }
        ensures is { IfOk result (λ m. IsMatrixOf circuit.new m (arity_with operator self.now.arity other.now.arity) (λ inputs. combined operator (TrueIn circuit.old self.now inputs) (TrueIn circuit.old other.now inputs)) (may_combine operator (ThereIn self.now) (ThereIn other.now))) }
        ensures size { OnOk result (size circuit.new ≤ size circuit.old + 16 * combine_work operator self.now other.now) }
    {
        match operator {
            Operator::Union => Ok(self.united(alloc, circuit, other)?),
            Operator::Minus => Ok(self.without(alloc, circuit, other)?),
            Operator::Meet => Ok(self.met(alloc, circuit, other)?),
            Operator::Product => Ok(self.multiplied(alloc, circuit, other)?),
            Operator::Join => Ok(self.joined(alloc, circuit, other)?),
            Operator::Override => Ok(self.overridden(alloc, circuit, other)?),
            Operator::Dom => Ok(other.domain_in(alloc, circuit, self)?),
            Operator::Ran => Ok(self.range_in(alloc, circuit, other)?),
        }
    }

    // What the operator makes of the pairs of this matrix; an error may leave nodes.
    fn turned_by(
        &self,
        alloc: Global,
        circuit: &mut Circuit,
        operator: UnaryOperator,
    ) -> Result<Matrix, AllocError>
        requires arity { self.now.arity ≡ 2 }
        requires of { IsOf circuit.old self.now }
        requires may { MayTurn operator (size circuit.old) MOST_NODES (ThereIn self.now) }
        ensures extends { Extends circuit.old circuit.new }
        ensures is { IfOk result (λ m. IsMatrixOf circuit.new m 2 (λ inputs. turned operator (TrueIn circuit.old self.now inputs)) (turned operator (ThereIn self.now))) }
        ensures size { IfOk result (λ m. size circuit.new ≤ size circuit.old + 16 * turn_work operator m) }
    {
        match operator {
            UnaryOperator::Transpose => Ok(self.transposed(alloc)?),
            UnaryOperator::Closure => Ok(self.closed(alloc, circuit)?),
        }
    }
}
