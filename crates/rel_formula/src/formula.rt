// Expressions and formulas of the kernel.
ghost use Rattle.std.specs.Prelude.{◌≡◌, map, IfOk};
ghost use Rattle.rel_formula.specs.Kernel.{conjunction, disjunction, formulas_of};
ghost use Rattle.rel_formula.specs.View.{expression_tree, formula_tree};

use crate::connectives::{Comparison, Connective, Quantifier};
use std::alloc::{AllocError, Global};
use tuple_core::{Operator, UnaryOperator};

/// An expression, whose value is a set of tuples of one arity.
pub enum Expression {
    /// The relation of this number.
    Rel(u8),
    /// The atom of this binder, counted outward from 0.
    Var(u32),
    /// The empty set of atoms.
    None,
    /// The atoms of all top-level signatures.
    Univ,
    /// Each atom of these beside itself.
    Iden,
    Binary(Operator, Box<Expression>, Box<Expression>),
    /// Of a set of pairs.
    Unary(UnaryOperator, Box<Expression>),
}

// By hand, so that a caller's proof has one step wherever one is dropped.
impl Drop for Expression {
    fn drop(self) {
        match self {
            Expression::Rel(_) => {}
            Expression::Var(_) => {}
            Expression::None => {}
            Expression::Univ => {}
            Expression::Iden => {}
            Expression::Binary(_, _, _) => {}
            Expression::Unary(_, _) => {}
        }
    }
}

/// A formula, which is true or false.
pub enum Formula {
    Compared(Comparison, Expression, Expression),
    /// The set has so many tuples or more.
    AtLeast(u32, Expression),
    Not(Box<Formula>),
    Junction(Connective, Vec<Formula>),
    /// Of the atoms of a set.
    Quantified(Quantifier, Expression, Box<Formula>),
}

// By hand, so that a caller's proof has one step wherever one is dropped.
impl Drop for Formula {
    fn drop(self) {
        match self {
            Formula::Compared(_, _, _) => {}
            Formula::AtLeast(_, _) => {}
            Formula::Not(_) => {}
            Formula::Junction(_, _) => {}
            Formula::Quantified(_, _, _) => {}
        }
    }
}

impl Expression {
    /// An equal expression.
    pub fn copy(&self, alloc: Global) -> Result<Expression, AllocError>
        ensures { IfOk result (λ e. expression_tree e ≡ expression_tree self.now) }
    {
        match self {
            Expression::Rel(r) => Ok(Expression::Rel(*r)),
            Expression::Var(i) => Ok(Expression::Var(*i)),
            Expression::None => Ok(Expression::None),
            Expression::Univ => Ok(Expression::Univ),
            Expression::Iden => Ok(Expression::Iden),
            Expression::Binary(operator, a, b) => {
                let left = a.copy(alloc)?;
                let right = b.copy(alloc)?;
                Ok(Expression::Binary(*operator, Box::new(alloc, left)?, Box::new(alloc, right)?))
            }
            Expression::Unary(operator, a) => {
                let pairs = a.copy(alloc)?;
                Ok(Expression::Unary(*operator, Box::new(alloc, pairs)?))
            }
        }
    }
}

impl Formula {
    /// The formula that is true where each of these is.
    pub fn all_of(parts: Vec<Formula>) -> Formula
        ensures { formula_tree result ≡ conjunction (formulas_of (map formula_tree parts.items)) }
    {
        Formula::Junction(Connective::And, parts)
    }

    /// The formula that is true where some of these is.
    pub fn any_of(parts: Vec<Formula>) -> Formula
        ensures { formula_tree result ≡ disjunction (formulas_of (map formula_tree parts.items)) }
    {
        Formula::Junction(Connective::Or, parts)
    }

    /// An equal formula.
    #[cycle(copy)]
    pub fn copy(&self, alloc: Global) -> Result<Formula, AllocError>
        ensures { IfOk result (λ f. formula_tree f ≡ formula_tree self.now) }
    {
        match self {
            Formula::Compared(comparison, a, b) => {
                Ok(Formula::Compared(*comparison, a.copy(alloc)?, b.copy(alloc)?))
            }
            Formula::AtLeast(n, e) => Ok(Formula::AtLeast(*n, e.copy(alloc)?)),
            Formula::Not(f) => {
                let inner = f.copy(alloc)?;
                Ok(Formula::Not(Box::new(alloc, inner)?))
            }
            Formula::Junction(connective, parts) => {
                Ok(Formula::Junction(*connective, copies(alloc, parts)?))
            }
            Formula::Quantified(quantifier, e, f) => {
                let body = f.copy(alloc)?;
                Ok(Formula::Quantified(*quantifier, e.copy(alloc)?, Box::new(alloc, body)?))
            }
        }
    }
}

// An equal formula for each of these.
#[cycle(copy)]
fn copies(alloc: Global, parts: &[Formula]) -> Result<Vec<Formula>, AllocError>
    ensures { IfOk result (λ fs. map formula_tree fs.items ≡ map formula_tree parts.now) }
{
    let mut copies = Vec::new(alloc);
    for part in parts {
        copies.push(part.copy(alloc)?)?;
    }
    Ok(copies)
}
