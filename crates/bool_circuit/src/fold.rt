// What a gate of two operands is folded to.
use crate::shape::Node;

#[derive(Clone, Copy)]
pub(crate) enum Fold {
    // It has the value of this node.
    Node(Node),
    // It has this value at all inputs.
    Constant(bool),
    // It isn't folded.
    Open,
}
