// What can be compared, and how.
ghost use Rattle.std.specs.Prelude.{◌≡◌};
ghost use Rattle.model_types.specs.Sorts.{compares_relations, compares_sizes, may_stand_left, fits_left};
ghost use Rattle.model_types.specs.Parts.Kinds.{kind_view};

use crate::TypeFault;
use crate::part_sorts::arities::same_arity;
use crate::part_sorts::kinds::{Kind, as_number, as_relation};
use alloy_lex::Place;
use alloy_syntax::tree::Comparison;

/// Whether relations can be compared so.
pub(crate) fn compares_relations(comparison: Comparison) -> bool
    ensures { result ≡ compares_relations comparison }
{
    matches!(comparison, Comparison::In | Comparison::Equal)
}

/// Whether a size can be compared so.
pub(crate) fn compares_sizes(comparison: Comparison) -> bool
    ensures { result ≡ compares_sizes comparison }
{
    !matches!(comparison, Comparison::In)
}

/// Whether a part of that kind, which begins at the place, can stand to the left of the comparison.
pub fn may_stand_left(comparison: Comparison, place: Place, kind: Kind) -> Result<(), TypeFault>
    ensures { result ≡ may_stand_left comparison place (kind_view kind) }
{
    let fits = match kind {
        Kind::Relation(_) => compares_relations(comparison),
        Kind::Size => compares_sizes(comparison),
        _ => false,
    };
    if fits {
        Ok(())
    } else {
        Err(TypeFault::Sort { place })
    }
}

/// Whether the right side of a comparison at the place, which begins at `second`, fits the left one.
pub fn fits_left(place: Place, second: Place, left: Kind, right: Kind) -> Result<(), TypeFault>
    ensures { result ≡ fits_left place second (kind_view left) (kind_view right) }
{
    match left {
        Kind::Relation(arity) => {
            same_arity(place, arity, as_relation(second, right)?)?;
            Ok(())
        }
        _ => as_number(second, right),
    }
}
