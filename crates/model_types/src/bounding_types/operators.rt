// What operators make of bounding types.
ghost use Rattle.std.specs.Prelude.{◌≡◌, ◌++◌, IfOk};
ghost use Rattle.model_types.specs.Bounding.{Lists, constant_type, prefix_type, operator_type, joins, doubles};
ghost use Rattle.model_types.specs.Bounds.Same.{AreSame};

use crate::bounding_types::closure::through;
use crate::bounding_types::kept::BoundingType;
use crate::bounding_types::products::{
    ending_in, joins, meet, products, put_all, put_doubles, reversed, singles, starting_in,
};
use crate::bounding_types::work::Work;
use alloy_syntax::tree::{Constant, Operator, Prefix};
use std::alloc::{AllocError, Global};

/// The type of a constant, where these are the top-level signatures.
pub fn constant_type(
    alloc: Global,
    work: &mut Work,
    tops: &[usize],
    constant: Constant,
) -> Result<BoundingType, AllocError>
    ensures { IfOk result (λ t. AreSame t (constant_type tops.now constant)) }
{
    match constant {
        Constant::None => Ok(BoundingType::new(alloc)),
        Constant::Univ => singles(alloc, work, tops),
        Constant::Iden => with_doubles(alloc, work, tops, BoundingType::new(alloc)),
    }
}

/// What a prefix makes of a type, whatever lists stand for it.
pub fn prefix_type(
    alloc: Global,
    work: &mut Work,
    tops: &[usize],
    prefix: Prefix,
    a: BoundingType,
) -> Result<BoundingType, AllocError>
    ensures { IfOk result (λ t. (x : Lists) → AreSame a x → AreSame t (prefix_type tops.now prefix x)) }
{
    let made = prefixed(alloc, work, tops, prefix, a)?;
    Ok(made)
}

fn prefixed(
    alloc: Global,
    work: &mut Work,
    tops: &[usize],
    prefix: Prefix,
    a: BoundingType,
) -> Result<BoundingType, AllocError>
    ensures { IfOk result (λ t. AreSame t (prefix_type tops.now prefix a)) }
{
    match prefix {
        Prefix::Transpose => reversed(alloc, work, &a),
        Prefix::Closure => through(alloc, work, tops, a),
        Prefix::ReflexiveClosure => reflexive(alloc, work, tops, a),
        _ => Ok(BoundingType::new(alloc)),
    }
}

// The pairs between which one can go, and each signature beside itself.
fn reflexive(
    alloc: Global,
    work: &mut Work,
    tops: &[usize],
    a: BoundingType,
) -> Result<BoundingType, AllocError>
    ensures { IfOk result (λ t. AreSame t (prefix_type tops.now Prefix.ReflexiveClosure a)) }
{
    let pairs = through(alloc, work, tops, a)?;
    let all = with_doubles(alloc, work, tops, pairs)?;
    Ok(all)
}

// These lists, and each signature beside itself.
fn with_doubles(
    alloc: Global,
    work: &mut Work,
    tops: &[usize],
    lists: BoundingType,
) -> Result<BoundingType, AllocError>
    ensures { IfOk result (λ t. AreSame t (lists ++ doubles tops.now)) }
{
    let mut all = lists;
    put_doubles(alloc, work, &mut all, tops)?;
    Ok(all)
}

/// What an operator makes of two types, whatever lists stand for them.
pub fn operator_type(
    alloc: Global,
    work: &mut Work,
    operator: Operator,
    a: BoundingType,
    b: &BoundingType,
) -> Result<BoundingType, AllocError>
    ensures { IfOk result (λ t. (x y : Lists) → AreSame a x → AreSame b.now y → AreSame t (operator_type operator x y)) }
{
    let made = combined(alloc, work, operator, a, b)?;
    Ok(made)
}

fn combined(
    alloc: Global,
    work: &mut Work,
    operator: Operator,
    a: BoundingType,
    b: &BoundingType,
) -> Result<BoundingType, AllocError>
    ensures { IfOk result (λ t. AreSame t (operator_type operator a b.now)) }
{
    match operator {
        Operator::Union | Operator::Override => united(alloc, work, a, b),
        Operator::Minus => Ok(a),
        Operator::Meet => meet(alloc, work, &a, b),
        Operator::Product => products(alloc, work, &a, b),
        Operator::Domain => starting_in(alloc, work, &a, b),
        Operator::Range => ending_in(alloc, work, &a, b),
        _ => Ok(BoundingType::new(alloc)),
    }
}

// The lists of both.
fn united(
    alloc: Global,
    work: &mut Work,
    a: BoundingType,
    b: &BoundingType,
) -> Result<BoundingType, AllocError>
    ensures { IfOk result (λ t. AreSame t (a ++ b.now)) }
{
    let mut all = a;
    put_all(alloc, work, &mut all, b.as_slice())?;
    Ok(all)
}

/// What a join makes of two types, whatever lists stand for them.
pub fn join_type(
    alloc: Global,
    work: &mut Work,
    a: &BoundingType,
    b: &BoundingType,
) -> Result<BoundingType, AllocError>
    ensures { IfOk result (λ t. (x y : Lists) → AreSame a.now x → AreSame b.now y → AreSame t (joins x y)) }
{
    let made = joins(alloc, work, a, b)?;
    Ok(made)
}
