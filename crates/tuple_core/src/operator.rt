// The operators of relational expressions.

/// What stands between two sets of tuples.
#[derive(Clone, Copy)]
pub enum Operator {
    Union,
    Minus,
    Meet,
    Product,
    Join,
    /// The second set, and the pairs of the first whose first atom is first in no pair of the second.
    Override,
    /// The tuples of the second set whose first atom is in the first, which is a set of atoms.
    Dom,
    /// The tuples of the first set whose last atom is in the second, which is a set of atoms.
    Ran,
}

/// What stands before a set of pairs.
#[derive(Clone, Copy)]
pub enum UnaryOperator {
    Transpose,
    Closure,
}
