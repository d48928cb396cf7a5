// Joins with what stands in brackets.
ghost use Rattle.std.specs.Prelude.{List, IfOk};
ghost use Rattle.model_types.specs.Bounding.{Lists, brackets_type};
ghost use Rattle.model_types.specs.Bounds.Same.{AreSame};
ghost use Rattle.overload_resolution.specs.Expressions.Types.{AreEachSame};

use model_types::bounding_types::operators::join_type;
use model_types::bounding_types::{BoundingType, Work};
use std::alloc::{AllocError, Global};

/// The type of an expression of this type with arguments of these types in brackets behind it, whatever lists stand for
/// them. The first argument is joined innermost.
pub fn brackets_type(
    alloc: Global,
    work: &mut Work,
    head: BoundingType,
    arguments: &[BoundingType],
) -> Result<BoundingType, AllocError>
    ensures { IfOk result (λ found. (x : Lists) (ys : List Lists) → AreSame head x → AreEachSame arguments.now ys → AreSame found (brackets_type x ys)) }
{
    let mut all = head;
    for argument in arguments {
        all = join_type(alloc, work, argument, &all)?;
    }
    Ok(all)
}
