// Nodes of a circuit, and what each is made of.
use std::marker::Model;

/// A node of the circuit that gave it: its place among that circuit's nodes.
#[derive(Clone, Copy, PartialEq, Eq, PartialOrd, Ord, Hash, Debug)]
pub struct Node {
    place: u32,
}

impl Model for Node {
    ghost use Rattle.std.specs.Prelude.{ℕ};

    ghost Value = { ℕ };

    ghost view = { λ node. node.place };

    ghost inverse = { λ place. record { place = place } };
}

impl Node {
    ghost use Rattle.std.specs.Prelude.{◌≡◌};

    pub(crate) fn new(place: u32) -> Node
        ensures { result ≡ place }
    {
        Node { place }
    }

    /// The node's place, from 0.
    pub fn place(self) -> u32
        ensures { result ≡ self }
    {
        self.place
    }
}

/// What a node is made of.
#[derive(Clone, Copy, PartialEq, Eq, Hash, Debug)]
pub enum Shape {
    /// It has this value at all inputs.
    Constant(bool),
    /// It has the value of the input of this number.
    Input(u32),
    /// It is true where both are.
    And(Node, Node),
    /// It is true where one of them is.
    Or(Node, Node),
    /// It is true where the other is false.
    Not(Node),
}
