// The arities that operators want of their operands, and make of them.
ghost use Rattle.std.specs.Prelude.{◌≡◌, ℕ, map};
ghost use Rattle.alloy_lex.specs.declared.token.Place.{Place};
ghost use Rattle.model_types.specs.Sorts.{constant_arity, joined_arity, same_arity, binary_arity, operator_arity, brackets_arity, is_connective};

use crate::TypeFault;
use alloy_lex::Place;
use alloy_syntax::tree::{Constant, Operator};

// The largest arity.
const LARGEST: usize = 3;

/// The arity of a constant.
pub fn constant_arity(constant: Constant) -> usize
    ensures { result ≡ constant_arity constant }
{
    match constant {
        Constant::None | Constant::Univ => 1,
        Constant::Iden => 2,
    }
}

/// The arity of a join at the place of relations of these arities.
pub fn joined_arity(place: Place, left: usize, right: usize) -> Result<usize, TypeFault>
    ensures { result ≡ joined_arity place left right }
{
    let columns = left.saturating_add(right);
    if columns < 3 {
        return Err(TypeFault::Arity { place });
    }
    if columns > LARGEST + 2 {
        return Err(TypeFault::ArityTooLarge { place });
    }
    Ok(columns - 2)
}

/// The one arity of two relations beside an operator at the place.
pub(crate) fn same_arity(place: Place, left: usize, right: usize) -> Result<usize, TypeFault>
    ensures { result ≡ same_arity place left right }
{
    if left != right {
        return Err(TypeFault::Arity { place });
    }
    Ok(left)
}

/// The arity of a relation that has to be binary, for an operator at the place.
pub(crate) fn binary_arity(place: Place, arity: usize) -> Result<usize, TypeFault>
    ensures { result ≡ binary_arity place arity }
{
    if arity != 2 {
        return Err(TypeFault::NotBinary { place });
    }
    Ok(2)
}

/// The arity of what an operator at the place makes of two relations of these arities, which begin at `first` and `second`.
pub fn operator_arity(
    operator: Operator,
    place: Place,
    first: Place,
    second: Place,
    left: usize,
    right: usize,
) -> Result<usize, TypeFault>
    ensures { result ≡ operator_arity operator place first second left right }
{
    match operator {
        Operator::Union | Operator::Minus | Operator::Meet => same_arity(place, left, right),
        Operator::Product => multiplied_arity(place, left, right),
        Operator::Override => {
            binary_arity(place, left)?;
            binary_arity(place, right)
        }
        Operator::Domain => unary_beside(first, left, right),
        Operator::Range => unary_beside(second, right, left),
        _ => Err(TypeFault::Sort { place: first }),
    }
}

// The arity of a product at the place.
fn multiplied_arity(place: Place, left: usize, right: usize) -> Result<usize, TypeFault>
    ensures { result ≡ operator_arity Operator.Product place place place left right }
{
    let columns = left.saturating_add(right);
    if columns > LARGEST {
        return Err(TypeFault::ArityTooLarge { place });
    }
    Ok(columns)
}

// The arity of a relation beside one that begins at the place and has to be unary.
fn unary_beside(place: Place, unary: usize, other: usize) -> Result<usize, TypeFault>
    ensures { result ≡ operator_arity Operator.Domain place place place unary other }
{
    if unary != 1 {
        return Err(TypeFault::NotUnary { place });
    }
    Ok(other)
}

/// The arity of joins at the place of a relation with those in brackets behind it, the first one innermost. Of each of these
/// the arity is given, and where it begins.
pub fn brackets_arity(
    place: Place,
    arity: usize,
    arguments: &[(usize, Place)],
) -> Result<usize, TypeFault>
    ensures { result ≡ brackets_arity place arity (map (λ (n : ℕ × Place). n.0) arguments.now) }
{
    let mut joined = arity;
    for argument in arguments {
        joined = joined_arity(place, argument.0, joined)?;
    }
    Ok(joined)
}

/// Whether the operator is `&&`, `||` or `<=>`, which stands between formulas.
pub fn is_connective(operator: Operator) -> bool
    ensures { result ≡ is_connective operator }
{
    matches!(operator, Operator::Or | Operator::And | Operator::Iff)
}
