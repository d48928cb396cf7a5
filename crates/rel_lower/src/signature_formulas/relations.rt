// Relations by their numbers.
ghost use Rattle.std.specs.Prelude.{◌≡◌, IfOk};
ghost use Rattle.rel_formula.specs.Kernel.{rel};
ghost use Rattle.rel_formula.specs.View.{expression_tree};

use rel_formula::Expression;
use std::alloc::AllocError;

/// The relation of a number. A number above 255 is answered as want of memory: no problem has so many relations.
pub fn relation(number: usize) -> Result<Expression, AllocError>
    ensures { IfOk result (λ e. expression_tree e ≡ rel number) }
{
    match u8::try_from(number) {
        Ok(number) => Ok(Expression::Rel(number)),
        Err(_) => Err(AllocError),
    }
}
