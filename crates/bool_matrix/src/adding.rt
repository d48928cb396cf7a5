// What the operators add to a matrix, an entry or a row of entries at a time.
ghost use Rattle.std.specs.Prelude.{◌≡◌, ◌≤◌, ◌<◌, ◌+◌, ◌*◌, ◌++◌, length, sum_by, IfOk, OnOk, IsTrue, All};
ghost use Rattle.bool_matrix.specs.Terms.{joining};
ghost use Rattle.bool_circuit.specs.Network.{size};
ghost use Rattle.bool_circuit.specs.Value.{value_at, Extends};
ghost use Rattle.tuple_core.specs.Gains.{SomeGives};
ghost use Rattle.tuple_core.specs.Operators.{United, JoinsTo};
ghost use Rattle.bool_matrix.specs.Cells.{IsOf, AtEntry, TrueAt, TrueJoin, TrueProduct, ThereIn, TrueIn, Says, MatrixGains};

use crate::entry::Entry;
use crate::matrix::Matrix;
use bool_circuit::{Circuit, MOST_NODES, Node};
use std::alloc::AllocError;
use tuple_core::Tuple;

impl Matrix {
    // Puts in these tuples with their nodes.
    pub(crate) fn add_all(
        &mut self,
        circuit: &mut Circuit,
        entries: &[Entry],
    ) -> Result<(), AllocError>
        requires arities { All (λ e. length e.tuple ≡ self.old.arity) entries.now }
        requires nodes { All (λ e. e.node < length circuit.old.shapes) entries.now }
        requires of { IsOf circuit.old self.old }
        requires room { size circuit.old + length entries.now < MOST_NODES }
        ensures extends { Extends circuit.old circuit.new }
        ensures gains { OnOk result (MatrixGains circuit.old circuit.new self.old self.new (λ inputs. SomeGives entries.now (TrueAt circuit.old inputs)) (SomeGives entries.now AtEntry)) }
        ensures size { OnOk result (size circuit.new ≤ size circuit.old + length entries.now) }
    {
        for entry in entries {
            self.add(circuit, entry.tuple.copy(), entry.node)?;
        }
        Ok(())
    }

    // Puts in these tuples with their nodes, and then this one with its.
    pub(crate) fn add_behind(
        &mut self,
        circuit: &mut Circuit,
        before: &[Entry],
        entry: &Entry,
    ) -> Result<(), AllocError>
        requires arities { All (λ e. length e.tuple ≡ self.old.arity) before.now }
        requires arity { length entry.now.tuple ≡ self.old.arity }
        requires nodes { All (λ e. e.node < length circuit.old.shapes) before.now }
        requires node { entry.now.node < length circuit.old.shapes }
        requires of { IsOf circuit.old self.old }
        requires room { size circuit.old + length before.now + 1 < MOST_NODES }
        ensures extends { Extends circuit.old circuit.new }
        ensures gains { OnOk result (MatrixGains circuit.old circuit.new self.old self.new (λ inputs. United (SomeGives before.now (TrueAt circuit.old inputs)) (TrueAt circuit.old inputs entry.now)) (United (SomeGives before.now AtEntry) (AtEntry entry.now))) }
        ensures size { OnOk result (size circuit.new ≤ size circuit.old + length before.now + 1) }
    {
        self.add_all(circuit, before)?;
        self.add(circuit, entry.tuple.copy(), entry.node)?;
        Ok(())
    }

    // Puts in the entry's tuple, true where the entry's node is and the key is in `filter`; nothing where the key
    // isn't there.
    pub(crate) fn add_if(
        &mut self,
        circuit: &mut Circuit,
        entry: &Entry,
        filter: &Matrix,
        key: &Tuple,
    ) -> Result<(), AllocError>
        requires arity { length entry.now.tuple ≡ self.old.arity }
        requires node { entry.now.node < length circuit.old.shapes }
        requires of { IsOf circuit.old self.old }
        requires of_filter { IsOf circuit.old filter.now }
        requires room { size circuit.old + 1 < MOST_NODES }
        ensures extends { Extends circuit.old circuit.new }
        ensures gains { OnOk result (MatrixGains circuit.old circuit.new self.old self.new (λ inputs t. TrueAt circuit.old inputs entry.now t × TrueIn circuit.old filter.now inputs key.now) (λ t. AtEntry entry.now t × ThereIn filter.now key.now)) }
        ensures size { size circuit.new ≤ size circuit.old + 2 }
    {
        let _ = filter.entries(); // for the proof
        if let Some(node) = filter.node(key) {
            let both = circuit.and(entry.node, node)?;
            self.add(circuit, entry.tuple.copy(), both)?;
        }
        Ok(())
    }

    // A node that is true where `node` is and the tuple isn't in this matrix.
    pub(crate) fn node_unless(
        &self,
        circuit: &mut Circuit,
        node: Node,
        tuple: &Tuple,
    ) -> Result<Node, AllocError>
        requires node { node < length circuit.old.shapes }
        requires of { IsOf circuit.old self.now }
        requires room { size circuit.old + 1 < MOST_NODES }
        ensures extends { Extends circuit.old circuit.new }
        ensures says { IfOk result (λ n. Says circuit.new n (λ inputs. IsTrue (value_at circuit.old node inputs) × (TrueIn circuit.old self.now inputs tuple.now → ⊥))) }
        ensures size { size circuit.new ≤ size circuit.old + 2 }
    {
        let _ = self.entries(); // for the proof
        match self.node(tuple) {
            Some(other) => {
                let absent = circuit.not(other)?;
                let both = circuit.and(node, absent)?;
                Ok(both)
            }
            None => Ok(node),
        }
    }

    // Puts in the entry's tuple, true where the entry's node is and the key isn't in `filter`.
    pub(crate) fn add_unless(
        &mut self,
        circuit: &mut Circuit,
        entry: &Entry,
        filter: &Matrix,
        key: &Tuple,
    ) -> Result<(), AllocError>
        requires arity { length entry.now.tuple ≡ self.old.arity }
        requires node { entry.now.node < length circuit.old.shapes }
        requires of { IsOf circuit.old self.old }
        requires of_filter { IsOf circuit.old filter.now }
        requires room { size circuit.old + 2 < MOST_NODES }
        ensures extends { Extends circuit.old circuit.new }
        ensures gains { OnOk result (MatrixGains circuit.old circuit.new self.old self.new (λ inputs t. TrueAt circuit.old inputs entry.now t × (TrueIn circuit.old filter.now inputs key.now → ⊥)) (AtEntry entry.now)) }
        ensures size { OnOk result (size circuit.new ≤ size circuit.old + 3) }
    {
        let node = filter.node_unless(circuit, entry.node, key)?;
        self.add(circuit, entry.tuple.copy(), node)?;
        Ok(())
    }

    // Puts in what the two tuples join to, if they do, true where both nodes are.
    pub(crate) fn add_join(
        &mut self,
        circuit: &mut Circuit,
        left: &Entry,
        right: &Entry,
    ) -> Result<(), AllocError>
        requires low { 3 ≤ length left.now.tuple + length right.now.tuple }
        requires high { length left.now.tuple + length right.now.tuple ≤ 5 }
        requires arity { length left.now.tuple + length right.now.tuple ≡ self.old.arity + 2 }
        requires node { left.now.node < length circuit.old.shapes }
        requires other { right.now.node < length circuit.old.shapes }
        requires of { IsOf circuit.old self.old }
        requires room { size circuit.old + 2 * joining left.now.tuple right.now.tuple < MOST_NODES }
        ensures extends { Extends circuit.old circuit.new }
        ensures gains { OnOk result (MatrixGains circuit.old circuit.new self.old self.new (λ inputs. TrueJoin circuit.old inputs left.now right.now) (JoinsTo left.now.tuple right.now.tuple)) }
        ensures size { OnOk result (size circuit.new ≤ size circuit.old + 2 * joining left.now.tuple right.now.tuple) }
    {
        match left.tuple.join(&right.tuple) {
            Some(tuple) => {
                let both = circuit.and(left.node, right.node)?;
                self.add(circuit, tuple, both)?;
                Ok(())
            }
            None => Ok(()),
        }
    }

    // Puts in what `left` joins to with each of `rights`, true where both nodes are.
    pub(crate) fn add_joins(
        &mut self,
        circuit: &mut Circuit,
        left: &Entry,
        rights: &[Entry],
    ) -> Result<(), AllocError>
        requires low { All (λ r. 3 ≤ length left.now.tuple + length r.tuple) rights.now }
        requires high { All (λ r. length left.now.tuple + length r.tuple ≤ 5) rights.now }
        requires arities { All (λ r. length left.now.tuple + length r.tuple ≡ self.old.arity + 2) rights.now }
        requires node { left.now.node < length circuit.old.shapes }
        requires nodes { All (λ e. e.node < length circuit.old.shapes) rights.now }
        requires of { IsOf circuit.old self.old }
        requires room { size circuit.old + 2 * sum_by (λ r. joining left.now.tuple r.tuple) rights.now < MOST_NODES }
        ensures extends { Extends circuit.old circuit.new }
        ensures gains { OnOk result (MatrixGains circuit.old circuit.new self.old self.new (λ inputs. SomeGives rights.now (TrueJoin circuit.old inputs left.now)) (SomeGives rights.now (λ r. JoinsTo left.now.tuple r.tuple))) }
        ensures size { OnOk result (size circuit.new ≤ size circuit.old + 2 * sum_by (λ r. joining left.now.tuple r.tuple) rights.now) }
    {
        for right in rights {
            self.add_join(circuit, left, right)?;
        }
        Ok(())
    }

    // Puts in `left` followed by each of `rights`, true where both nodes are.
    pub(crate) fn add_products(
        &mut self,
        circuit: &mut Circuit,
        left: &Entry,
        rights: &[Entry],
    ) -> Result<(), AllocError>
        requires high { All (λ r. length left.now.tuple + length r.tuple ≤ 3) rights.now }
        requires arities { All (λ r. length left.now.tuple + length r.tuple ≡ self.old.arity) rights.now }
        requires node { left.now.node < length circuit.old.shapes }
        requires nodes { All (λ e. e.node < length circuit.old.shapes) rights.now }
        requires of { IsOf circuit.old self.old }
        requires room { size circuit.old + 2 * length rights.now < MOST_NODES }
        ensures extends { Extends circuit.old circuit.new }
        ensures gains { OnOk result (MatrixGains circuit.old circuit.new self.old self.new (λ inputs. SomeGives rights.now (TrueProduct circuit.old inputs left.now)) (SomeGives rights.now (λ r t. t ≡ left.now.tuple ++ r.tuple))) }
        ensures size { OnOk result (size circuit.new ≤ size circuit.old + 2 * length rights.now) }
    {
        for right in rights {
            let both = circuit.and(left.node, right.node)?;
            self.add(circuit, left.tuple.product(&right.tuple), both)?;
        }
        Ok(())
    }
}
