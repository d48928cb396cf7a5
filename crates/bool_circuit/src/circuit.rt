// A circuit, which grows by a node at a time.
ghost use Rattle.std.specs.Prelude.{◌≡◌, ℕ, ◌+◌, ◌<◌, ◌≤◌, ◌↔◌, Bool, not, ◌&&◌, ◌||◌, [], length, take, slice_get, Some, IfOk, OnOk, OnErr, IsTrue, MatchOption};
ghost use Rattle.bool_circuit.specs.Network.{Has, ReadsBelow, IsInOrder, size};
ghost use Rattle.bool_circuit.specs.Value.{shape_value, place, value_at, Extends, Stands};
ghost use Rattle.bool_circuit.specs.Folding.{IsConstant, AreOpposite, Folds, Makes};
ghost use Rattle.bool_circuit.specs.Fold.{IsFold};
ghost use Rattle.bool_circuit.specs.declared.shape.Shape.TheVariants.{Constant, Input, And, Or, Not};

use crate::eval::values_of;
use crate::fold::Fold;
use crate::shape::{Node, Shape};
use indexmap::IndexSet;
use std::alloc::{AllocError, Global};
use std::marker::Model;

/// The most nodes of a circuit.
pub const MOST_NODES: u32 = 1_073_741_823;

/// A list of nodes, each an input, a constant, or a gate over nodes before it. A contract sees it as a `Network`.
///
/// Two nodes have never the same shape: a gate that is there is found and not made again. A node belongs to the
/// circuit that gave it, and keeps its value while the circuit grows.
#[derive(Drop)]
pub struct Circuit {
    inputs: u32,
    nodes: IndexSet<Shape>,
}

impl Model for Circuit {
    ghost use Rattle.std.specs.Prelude.{◌≤◌, length};
    ghost use Rattle.bool_circuit.specs.Network.{Network, IsInOrder};

    ghost Value = { Network };

    ghost view = { λ c. record { inputs = c.inputs; shapes = c.nodes.keys } };

    ghost invariant = { λ c. (length c.nodes.keys ≤ 1073741823) × IsInOrder (record { inputs = c.inputs; shapes = c.nodes.keys }) };
}

impl Circuit {
    /// A circuit with no node, over so many inputs.
    pub fn new(alloc: Global, inputs: u32) -> Circuit
        ensures { result ≡ record { inputs = inputs; shapes = [] } }
    {
        Circuit {
            inputs,
            nodes: IndexSet::new(alloc),
        }
    }

    /// How many inputs there are.
    pub fn inputs(&self) -> u32
        ensures { result ≡ self.now.inputs }
    {
        self.inputs
    }

    /// How many nodes there are.
    pub fn len(&self) -> u32
        ensures value { result ≡ length self.now.shapes }
        ensures most { result ≤ MOST_NODES }
    {
        self.nodes.len() as u32
    }

    /// Whether there is no node.
    pub fn is_empty(&self) -> bool
        ensures { IsTrue result ↔ (length self.now.shapes ≡ 0) }
    {
        self.nodes.is_empty()
    }

    /// Whether there is no room for one more node.
    pub fn is_full(&self) -> bool
        ensures { IsTrue result ↔ (MOST_NODES ≤ length self.now.shapes) }
    {
        self.len() == MOST_NODES
    }

    /// What the node at a place is made of.
    pub fn at(&self, i: u32) -> Shape
        requires { i < length self.now.shapes }
        ensures is { Has self.now i result }
        ensures before { ReadsBelow self.now.inputs i result }
        ensures value { (inputs : ℕ → Bool) → value_at self.now i inputs ≡ shape_value inputs (λ n. value_at self.now n inputs) result }
    {
        self.nodes.as_slice()[i as usize]
    }

    /// The node of an input. It is made the first time alone.
    pub fn input(&mut self, i: u32) -> Result<Node, AllocError>
        requires input { i < self.old.inputs }
        requires room { length self.old.shapes < MOST_NODES }
        ensures extends { Extends self.old self.new }
        ensures value { IfOk result (λ node. Stands self.new node (λ inputs. inputs i)) }
        ensures made { IfOk result (Makes (Shape.Input i) self.old self.new) }
        ensures size { size self.new ≤ size self.old + 1 }
        ensures err { OnErr result (self.new ≡ self.old) }
    {
        self.add(Shape::Input(i))
    }

    /// The node of a constant. It is made the first time alone.
    pub fn constant(&mut self, b: bool) -> Result<Node, AllocError>
        requires { length self.old.shapes < MOST_NODES }
        ensures extends { Extends self.old self.new }
        ensures value { IfOk result (λ node. Stands self.new node (λ _. b)) }
        ensures made { IfOk result (Makes (Shape.Constant b) self.old self.new) }
        ensures size { size self.new ≡ size self.old }
        ensures err { OnErr result (self.new ≡ self.old) }
    {
        self.add(Shape::Constant(b))
    }

    /// The node that is true where the other is false. Of a constant it is the other constant.
    pub fn not(&mut self, a: Node) -> Result<Node, AllocError>
        requires operand { a < length self.old.shapes }
        requires room { length self.old.shapes < MOST_NODES }
        ensures extends { Extends self.old self.new }
        ensures value { IfOk result (λ node. Stands self.new node (λ inputs. not (value_at self.old a inputs))) }
        ensures made { (IsConstant self.old a → ⊥) → IfOk result (Makes (Shape.Not a) self.old self.new) }
        ensures folded { IsConstant self.old a → size self.new ≡ size self.old }
        ensures size { size self.new ≤ size self.old + 1 }
        ensures one { length self.new.shapes ≤ length self.old.shapes + 1 }
        ensures err { OnErr result (self.new ≡ self.old) }
    {
        match self.at(a.place()) {
            Shape::Constant(b) => self.constant(!b),
            _ => self.add(Shape::Not(a)),
        }
    }

    /// The node that is true where both are.
    pub fn and(&mut self, a: Node, b: Node) -> Result<Node, AllocError>
        requires first { a < length self.old.shapes }
        requires second { b < length self.old.shapes }
        requires room { length self.old.shapes < MOST_NODES }
        ensures extends { Extends self.old self.new }
        ensures value { IfOk result (λ node. Stands self.new node (λ inputs. value_at self.old a inputs && value_at self.old b inputs)) }
        ensures made { (Folds self.old a b → ⊥) → IfOk result (Makes (Shape.And a b) self.old self.new) }
        ensures folded { Folds self.old a b → size self.new ≡ size self.old }
        ensures size { size self.new ≤ size self.old + 1 }
        ensures one { length self.new.shapes ≤ length self.old.shapes + 1 }
        ensures err { OnErr result (self.new ≡ self.old) }
    {
        match self.fold(a, b, true) {
            Fold::Node(node) => Ok(node),
            Fold::Constant(value) => self.constant(value),
            Fold::Open => self.add(Shape::And(a, b)),
        }
    }

    /// The node that is true where one of them is.
    pub fn or(&mut self, a: Node, b: Node) -> Result<Node, AllocError>
        requires first { a < length self.old.shapes }
        requires second { b < length self.old.shapes }
        requires room { length self.old.shapes < MOST_NODES }
        ensures extends { Extends self.old self.new }
        ensures value { IfOk result (λ node. Stands self.new node (λ inputs. value_at self.old a inputs || value_at self.old b inputs)) }
        ensures made { (Folds self.old a b → ⊥) → IfOk result (Makes (Shape.Or a b) self.old self.new) }
        ensures folded { Folds self.old a b → size self.new ≡ size self.old }
        ensures size { size self.new ≤ size self.old + 1 }
        ensures one { length self.new.shapes ≤ length self.old.shapes + 1 }
        ensures err { OnErr result (self.new ≡ self.old) }
    {
        match self.fold(a, b, false) {
            Fold::Node(node) => Ok(node),
            Fold::Constant(value) => self.constant(value),
            Fold::Open => self.add(Shape::Or(a, b)),
        }
    }

    /// Takes the last nodes away, so that at most `len` are left. What Extends an earlier circuit is again that
    /// circuit, once it is cut to its length.
    pub fn truncate(&mut self, len: u32)
        ensures { self.new ≡ record self.old { shapes = take len self.old.shapes } }
    {
        self.nodes.truncate(len as usize);
    }

    /// The value of a node, at a value for each input.
    pub fn eval(&self, alloc: Global, node: Node, inputs: &[bool]) -> Result<bool, AllocError>
        requires node { node < length self.now.shapes }
        requires inputs { length inputs.now ≡ self.now.inputs }
        ensures { IfOk result (λ value. value ≡ value_at self.now node (place inputs.now)) }
    {
        let values = values_of(alloc, self.nodes.as_slice(), inputs)?;
        Ok(values[node.place() as usize])
    }

    // The node of a shape, which is made where no node has it.
    fn add(&mut self, shape: Shape) -> Result<Node, AllocError>
        requires before { ReadsBelow self.old.inputs (length self.old.shapes) shape }
        requires room { length self.old.shapes < MOST_NODES }
        ensures extends { Extends self.old self.new }
        ensures value { IfOk result (λ node. Stands self.new node (λ inputs. shape_value inputs (λ n. value_at self.old n inputs) shape)) }
        ensures made { IfOk result (Makes shape self.old self.new) }
        ensures size { size self.new ≤ size self.old + 1 }
        ensures one { length self.new.shapes ≤ length self.old.shapes + 1 }
        ensures err { OnErr result (self.new ≡ self.old) }
    {
        let (index, _) = self.nodes.insert_full(shape)?;
        Ok(Node::new(index as u32))
    }

    // Whether a gate of two operands is folded, and to what. `neutral` is the constant that leaves the other
    // operand as it is: true for a conjunction, false for a disjunction.
    fn fold(&self, a: Node, b: Node, neutral: bool) -> Fold
        requires first { a < length self.now.shapes }
        requires second { b < length self.now.shapes }
        ensures { IsFold neutral self.now a b result }
    {
        let first = self.at(a.place());
        if let Shape::Constant(value) = first {
            return Fold::Node(if value == neutral { b } else { a });
        }
        let second = self.at(b.place());
        if let Shape::Constant(value) = second {
            return Fold::Node(if value == neutral { a } else { b });
        }
        if a == b {
            return Fold::Node(a);
        }
        if first == Shape::Not(b) || second == Shape::Not(a) {
            return Fold::Constant(!neutral);
        }
        Fold::Open
    }
}
