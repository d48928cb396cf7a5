// A sparse matrix of nodes, kept and seen as the sorted list of its tuples with their nodes.
ghost use Rattle.std.specs.Prelude.{◌≡◌, ◌≤◌, ◌<◌, ◌+◌, [], length, IfOk, IfSome, IfNone, OnOk, OnErr, IsTrue, ◌↔◌, Contains};
ghost use Rattle.bool_circuit.specs.Network.{size};
ghost use Rattle.bool_circuit.specs.Value.{value_at, Extends};
ghost use Rattle.bool_matrix.specs.Cells.{IsCells, IsOf, ThereIn, TrueIn, Says, MatrixGains};
ghost use Rattle.bool_matrix.specs.Edits.{Puts};

use crate::entry::{Entry, add_entry, are_below, place_of, put_entry};
use bool_circuit::{Circuit, MOST_NODES, Node};
use std::alloc::{AllocError, Global};
use std::marker::Model;
use tuple_core::Tuple;

/// Tuples of one arity, each once and in order, with a node each. A tuple that isn't there has the value false.
///
/// An operator takes the circuit that the nodes of its matrices belong to, and adds to it; old nodes keep their values.
/// At all inputs the true tuples of its result are what the operator on sets makes of the true tuples of its operands.
/// Where it answers want of memory the circuit is as it was. Room for the nodes that it may make is a condition.
#[derive(Drop)]
pub struct Matrix {
    arity: u8,
    entries: Vec<Entry>,
}

impl Model for Matrix {
    ghost use Rattle.bool_matrix.specs.Cells.{Cells, IsCells};

    ghost Value = { Cells };

    ghost view = { λ m. record { arity = m.arity; entries = m.entries.items } };

    ghost invariant = { λ m. IsCells (record { arity = m.arity; entries = m.entries.items }) };
}

impl Matrix {
    /// The matrix of this arity, which is 1 to 3, in which no tuple is there.
    pub fn new(alloc: Global, arity: u8) -> Matrix
        requires low { 1 ≤ arity }
        requires high { arity ≤ 3 }
        ensures arity { result.arity ≡ arity }
        ensures entries { result.entries ≡ [] }
    {
        Matrix {
            arity,
            entries: Vec::new(alloc),
        }
    }

    /// How many atoms each tuple has: 1 to 3.
    pub fn arity(&self) -> u8
        ensures value { result ≡ self.now.arity }
        ensures low { 1 ≤ result }
        ensures high { result ≤ 3 }
    {
        self.arity
    }

    /// The tuples that are there with their nodes, in order.
    pub fn entries(&self) -> &[Entry]
        ensures value { result.now ≡ self.now.entries }
        ensures well { IsCells self.now }
    {
        self.entries.as_slice()
    }

    /// Whether each node is one of the circuit, as each call that takes a circuit wants it.
    pub fn is_of(&self, circuit: &Circuit) -> bool
        ensures { IsTrue result ↔ IsOf circuit.now self.now }
    {
        are_below(self.entries(), circuit.len())
    }

    /// Whether the tuple is there.
    pub fn has(&self, tuple: &Tuple) -> bool
        ensures { IsTrue result ↔ ThereIn self.now tuple.now }
    {
        place_of(self.entries(), tuple).is_ok()
    }

    /// The tuple's node, where the tuple is there.
    pub fn node(&self, tuple: &Tuple) -> Option<Node>
        ensures some { IfSome result (λ n. Contains self.now.entries (record { tuple = tuple.now; node = n })) }
        ensures none { IfNone result (ThereIn self.now tuple.now → ⊥) }
    {
        let entries = self.entries();
        match place_of(entries, tuple) {
            Ok(i) => Some(entries[i].node),
            Err(_) => None,
        }
    }

    /// The tuple's node, or the constant false where it isn't there.
    pub fn cell(&self, circuit: &mut Circuit, tuple: &Tuple) -> Result<Node, AllocError>
        requires of { IsOf circuit.old self.now }
        requires room { length circuit.old.shapes < MOST_NODES }
        ensures extends { Extends circuit.old circuit.new }
        ensures says { IfOk result (λ n. Says circuit.new n (λ inputs. TrueIn circuit.old self.now inputs tuple.now)) }
        ensures size { size circuit.new ≡ size circuit.old }
        ensures err { OnErr result (circuit.new ≡ circuit.old) }
    {
        let _ = self.entries(); // for the proof
        match self.node(tuple) {
            Some(node) => Ok(node),
            None => {
                let none = circuit.constant(false)?;
                Ok(none)
            }
        }
    }

    /// Puts in a tuple that isn't there, with its node.
    pub fn put(&mut self, tuple: Tuple, node: Node) -> Result<(), AllocError>
        requires arity { length tuple ≡ self.old.arity }
        requires absent { ThereIn self.old tuple → ⊥ }
        ensures gains { OnOk result (Puts self.old self.new tuple node) }
        ensures err { OnErr result (self.new ≡ self.old) }
    {
        put_entry(&mut self.entries, tuple, node)?;
        Ok(())
    }

    /// An equal matrix.
    pub fn copy(&self, alloc: Global) -> Result<Matrix, AllocError>
        ensures { IfOk result (λ m. m ≡ self.now) }
    {
        let mut entries = Vec::new(alloc);
        for entry in self.entries() {
            entries.push(Entry {
                tuple: entry.tuple.copy(),
                node: entry.node,
            })?;
        }
        Ok(Matrix {
            arity: self.arity,
            entries,
        })
    }

    // Puts the tuple in with this node; where it is there, its node becomes one that is true where either is.
    pub(crate) fn add(
        &mut self,
        circuit: &mut Circuit,
        tuple: Tuple,
        node: Node,
    ) -> Result<(), AllocError>
        requires arity { length tuple ≡ self.old.arity }
        requires node { node < length circuit.old.shapes }
        requires of { IsOf circuit.old self.old }
        requires room { length circuit.old.shapes < MOST_NODES }
        ensures extends { Extends circuit.old circuit.new }
        ensures gains { OnOk result (MatrixGains circuit.old circuit.new self.old self.new (λ inputs t. (t ≡ tuple) × IsTrue (value_at circuit.old node inputs)) (λ t. t ≡ tuple)) }
        ensures size { size circuit.new ≤ size circuit.old + 1 }
    {
        add_entry(&mut self.entries, circuit, tuple, node)?;
        Ok(())
    }
}
