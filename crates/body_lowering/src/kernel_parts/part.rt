// What a part of a model becomes.
ghost use Rattle.std.specs.Prelude.{◌≡◌};
ghost use Rattle.rel_formula.specs.View.{expression_tree, formula_tree};
ghost use Rattle.lowering_rules.specs.Parts.{expression_in, formula_in, number_in};
ghost use Rattle.body_lowering.specs.Kernel.View.{part_view};

use rel_formula::{Expression, Formula};
use std::alloc::Global;

/// What a part of a model becomes.
#[derive(Drop)]
pub enum Part {
    Relation(Expression),
    Formula(Formula),
    Number(u16),
    /// The number of tuples of an expression.
    Size(Expression),
}

impl Part {
    /// The expression; the empty set, where it is something else.
    pub fn into_expression(self) -> Expression
        ensures { expression_tree result ≡ expression_in (part_view self) }
    {
        match self {
            Part::Relation(e) => e,
            _ => Expression::None,
        }
    }

    /// The formula; one that is always true, where it is something else.
    pub fn into_formula(self, alloc: Global) -> Formula
        ensures { formula_tree result ≡ formula_in (part_view self) }
    {
        match self {
            Part::Formula(f) => f,
            _ => Formula::all_of(Vec::new(alloc)),
        }
    }

    /// The number; 0, where it is something else.
    pub fn into_number(self) -> u16
        ensures { result ≡ number_in (part_view self) }
    {
        match self {
            Part::Number(n) => n,
            _ => 0,
        }
    }
}
