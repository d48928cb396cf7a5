// A pass over the nodes of a circuit, which gives each that the output rests on a literal, and ties it by clauses.
ghost use Rattle.std.specs.Prelude.{◌≡◌, ◌+◌, ◌*◌, ◌<◌, ◌≤◌, ◌^◌, ℕ, length, IfOk, OnOk, IsTrue};
ghost use Rattle.bool_circuit.specs.Network.{ReadsBelow};
ghost use Rattle.circuit_cnf.specs.Resting.{Reads};
ghost use Rattle.circuit_cnf.specs.Encoding.{AreMarks, IsAmong, literal_at, IsLiteral, IsEncoding};

use crate::gates::{add_clause, add_conjunction};
use crate::marks::marks_of;
use bool_circuit::{Circuit, Node, Shape};
use cnf_core::{Clause, Lit};
use std::alloc::{AllocError, Global};

/// The literals of the first nodes, the number of variables, and the clauses of the gates.
#[derive(Drop)]
pub(crate) struct Encoding {
    pub(crate) vars: u32,
    pub(crate) literals: Vec<Lit>,
    pub(crate) clauses: Vec<Clause>,
}

/// The literals and clauses of all nodes that the output rests on.
pub(crate) fn encoding_of(
    alloc: Global,
    circuit: &Circuit,
    output: Node,
) -> Result<Encoding, AllocError>
    requires output { output < length circuit.now.shapes }
    requires size { circuit.now.inputs + length circuit.now.shapes ≤ 2 ^ 28 }
    ensures count { IfOk result (λ e. length e.literals.items ≡ length circuit.now.shapes) }
    ensures encoding { IfOk result (λ e. (marks : _) × AreMarks circuit.now output marks × IsEncoding circuit.now output marks e.vars e.literals.items e.clauses.items) }
{
    let marks = marks_of(alloc, circuit, output)?;
    let mut encoding = Encoding {
        vars: circuit.inputs(),
        literals: Vec::with_capacity(alloc, circuit.len() as usize)?,
        clauses: Vec::new(alloc),
    };
    for i in 0..circuit.len() {
        encoding.add(alloc, circuit, &marks, i)?;
    }
    Ok(encoding)
}

impl Encoding {
    // The next node, which has no literal yet. What it reads has one, where it is marked.
    fn add(
        &mut self,
        alloc: Global,
        circuit: &Circuit,
        marks: &[bool],
        i: u32,
    ) -> Result<(), AllocError>
        requires node { i < length circuit.now.shapes }
        requires next { length self.old.literals.items ≡ i }
        requires size { circuit.now.inputs + length circuit.now.shapes ≤ 2 ^ 28 }
        requires so_far { (node : ℕ) × AreMarks circuit.now node marks.now × IsEncoding circuit.now node marks.now self.old.vars self.old.literals.items self.old.clauses.items }
        ensures next { OnOk result (length self.new.literals.items ≡ i + 1) }
        ensures so_far { OnOk result ((node : ℕ) → AreMarks circuit.now node marks.now → IsEncoding circuit.now node marks.now self.old.vars self.old.literals.items self.old.clauses.items → IsEncoding circuit.now node marks.now self.new.vars self.new.literals.items self.new.clauses.items) }
    {
        if !marks[i as usize] {
            return Ok(
                self.literals.push(Lit {
                    var: 1,
                    positive: true,
                })?,
            );
        }
        let literal = self.literal_of(alloc, circuit.at(i))?;
        self.literals.push(literal)?;
        Ok(())
    }

    // The literal of a shape. A constant, a conjunction and a disjunction get the next variable, and clauses.
    fn literal_of(&mut self, alloc: Global, shape: Shape) -> Result<Lit, AllocError>
        requires inputs { ReadsBelow self.old.vars (length self.old.literals.items) shape }
        requires operands { (m : ℕ) → Reads shape m → IsAmong self.old.vars (literal_at self.old.literals.items m) }
        requires room { self.old.vars + 1 < 2 ^ 31 }
        ensures kept { OnOk result (self.new.literals.items ≡ self.old.literals.items) }
        ensures is { IfOk result (IsLiteral shape self.old.literals.items (self.old.vars, self.old.clauses.items) (self.new.vars, self.new.clauses.items)) }
    {
        let own = Lit {
            var: self.vars + 1,
            positive: true,
        };
        match shape {
            Shape::Input(i) => Ok(Lit {
                var: i + 1,
                positive: true,
            }),
            Shape::Not(a) => Ok(self.literals[a.place() as usize].negation()),
            Shape::Constant(positive) => {
                let var = own.var;
                add_clause(alloc, &mut self.clauses, &[Lit { var, positive }])?;
                self.vars += 1;
                Ok(own)
            }
            Shape::And(a, b) => {
                let first = self.literals[a.place() as usize];
                let second = self.literals[b.place() as usize];
                add_conjunction(alloc, &mut self.clauses, own, first, second)?;
                self.vars += 1;
                Ok(own)
            }
            Shape::Or(a, b) => {
                let first = self.literals[a.place() as usize];
                let second = self.literals[b.place() as usize];
                add_conjunction(
                    alloc,
                    &mut self.clauses,
                    own.negation(),
                    first.negation(),
                    second.negation(),
                )?;
                self.vars += 1;
                Ok(own)
            }
        }
    }
}
