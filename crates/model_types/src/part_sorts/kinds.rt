// What a part is.
ghost use Rattle.std.specs.Prelude.{◌≡◌};
ghost use Rattle.model_types.specs.Sorts.{as_relation, as_formula, as_number, prefix_kind};
ghost use Rattle.model_types.specs.Parts.Kinds.{kind_view, kind_seen};

use crate::TypeFault;
use crate::part_sorts::arities::binary_arity;
use alloy_lex::Place;
use alloy_syntax::tree::Prefix;

/// A relation of some arity, a formula, a number, or the size of a relation.
#[derive(Clone, Copy, Debug, PartialEq, Eq)]
pub enum Kind {
    Relation(usize),
    Formula,
    Number,
    Size,
}

/// The arity of a part that begins at the place and has to be a relation.
pub fn as_relation(place: Place, kind: Kind) -> Result<usize, TypeFault>
    ensures { result ≡ as_relation place (kind_view kind) }
{
    match kind {
        Kind::Relation(arity) => Ok(arity),
        _ => Err(TypeFault::Sort { place }),
    }
}

/// Whether a part that begins at the place is a formula.
pub fn as_formula(place: Place, kind: Kind) -> Result<(), TypeFault>
    ensures { result ≡ as_formula place (kind_view kind) }
{
    match kind {
        Kind::Formula => Ok(()),
        _ => Err(TypeFault::Sort { place }),
    }
}

/// Whether a part that begins at the place is a number.
pub(crate) fn as_number(place: Place, kind: Kind) -> Result<(), TypeFault>
    ensures { result ≡ as_number place (kind_view kind) }
{
    match kind {
        Kind::Number => Ok(()),
        _ => Err(TypeFault::Sort { place }),
    }
}

/// What a prefix at the place makes of an operand of that kind, which begins at `inner`.
pub fn prefix_kind(
    prefix: Prefix,
    place: Place,
    inner: Place,
    kind: Kind,
) -> Result<Kind, TypeFault>
    ensures { kind_seen result ≡ prefix_kind prefix place inner (kind_view kind) }
{
    match prefix {
        Prefix::Not => {
            as_formula(inner, kind)?;
            Ok(Kind::Formula)
        }
        Prefix::Size => {
            as_relation(inner, kind)?;
            Ok(Kind::Size)
        }
        Prefix::Transpose | Prefix::Closure | Prefix::ReflexiveClosure => {
            let arity = as_relation(inner, kind)?;
            Ok(Kind::Relation(binary_arity(place, arity)?))
        }
        _ => {
            as_relation(inner, kind)?;
            Ok(Kind::Formula)
        }
    }
}
