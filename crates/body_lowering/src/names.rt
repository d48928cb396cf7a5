// What names stand for.
ghost use Rattle.std.specs.Prelude.{◌≡◌, ◌+◌, IfOk};
ghost use Rattle.rel_formula.specs.Kernel.{rel};
ghost use Rattle.rel_formula.specs.View.{expression_tree};
ghost use Rattle.lowering_rules.specs.Lowering.{Base, referent_lowered};
ghost use Rattle.body_lowering.specs.Locals.{locals_view};

use crate::locals::{Local, local_at};
use crate::room::{Depth, Room};
use lowering_rules::{LowerStop, TooLarge};
use named_model::phrase::Referent;
use rel_formula::Expression;
use std::alloc::Global;

/// What a name stands for, where there are so many signatures.
pub fn referred(
    alloc: Global,
    signatures: usize,
    at: Depth,
    locals: &[Local],
    room: &mut Room,
    referent: Referent,
) -> Result<Expression, LowerStop>
    ensures { IfOk result (λ e. (base : Base) → base.signatures ≡ signatures → expression_tree e ≡ referent_lowered base (locals_view locals.now) at.binders referent) }
{
    match referent {
        Referent::Signature(number) => Ok(relation(0, number)?),
        Referent::Field(number) => Ok(relation(signatures, number)?),
        Referent::Shared(_) => Ok(Expression::None),
        Referent::Local(number) => Ok(local_at(alloc, at, locals, room, number)?),
    }
}

// The relation of a number, which has at most 8 bits.
fn relation(first: usize, number: usize) -> Result<Expression, TooLarge>
    ensures { IfOk result (λ e. expression_tree e ≡ rel (first + number)) }
{
    match first.checked_add(number) {
        Some(sum) => Ok(Expression::Rel(small(sum)?)),
        None => Err(TooLarge),
    }
}

fn small(number: usize) -> Result<u8, TooLarge>
    ensures { IfOk result (λ n. n ≡ number) }
{
    match u8::try_from(number) {
        Ok(number) => Ok(number),
        Err(_) => Err(TooLarge),
    }
}
