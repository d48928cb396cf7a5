// What reading speaks of beside trees.
use crate::tree::Quantifier;
use alloy_lex::Place;

/// A form that the language refuses though the grammar could go on with it.
#[derive(Clone, Copy)]
pub enum Form {
    /// Braces with variables and their domain.
    Comprehension,
    /// A block behind the body of a signature.
    Appended,
    /// A multiplicity word beside an arrow that may have none.
    ArrowMultiplicity,
    /// More than one variable of `lone` or `one`.
    Several,
    /// A module other than `util/ordering`.
    Open,
}

/// The innermost bracket round a node, which says what may follow it: in braces another node, in square brackets a comma.
#[derive(Clone, Copy)]
pub enum Around {
    Braces,
    Brackets,
    Parens,
}

/// The levels of the grammar whose operands make a chain, the loosest first.
#[derive(Clone, Copy)]
pub enum Level {
    Or,
    Iff,
    And,
    Sum,
    Override,
    Meet,
    Restrict,
}

/// What stands under one construct more.
#[derive(Clone, Copy)]
pub enum Inside {
    /// In brackets of any kind.
    Node,
    /// Behind `!`.
    Negation,
    /// Behind `=>` and `else`.
    Implied,
    /// Behind a word that counts.
    Sum,
    /// Behind `#`.
    Size,
    /// Behind `~`, `^` and `*`.
    Tight,
    /// Behind a quantifier, which stands at that place.
    Quantified(Quantifier, Place),
    /// Behind `let`, which stands at that place.
    Let(Place),
}
