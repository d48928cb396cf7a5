// What the words in a field's bound say.
ghost use Rattle.std.specs.Prelude.{◌≡◌, [], IfOk, map, option_map, option_to_list};
ghost use Rattle.rel_formula.specs.Kernel.{rel, for_all};
ghost use Rattle.rel_formula.specs.View.{expression_tree, formula_tree};
ghost use Rattle.named_model.specs.View.{phrase_view, field_view, named_view};
ghost use Rattle.model_types.specs.Models.{sides_of};
ghost use Rattle.lowering_rules.specs.Parts.{expression_in};
ghost use Rattle.lowering_rules.specs.Lowering.{base_of, lowered};
ghost use Rattle.lowering_rules.specs.Formula.{word_before, unary_says, right_says, left_says, arrow_says};
ghost use Rattle.rel_lower.specs.Signatures.Said.{Says};

use crate::field_formulas::parts::{add_for_all, for_all, sides};
use crate::signature_formulas::relations::relation;
use alloy_syntax::tree::MultiplicityWord;
use body_lowering::kernel_parts::counts::{marked, one_of};
use body_lowering::kernel_parts::expressions::join;
use body_lowering::{Room, bodies};
use lowering_rules::LowerStop;
use model_types::part_sorts::bounds::bound_arity;
use named_model::Named;
use named_model::named::Field;
use named_model::phrase::Phrase;
use rel_formula::{Expression, Formula};
use std::alloc::{AllocError, Global};

/// Adds what the word before a unary bound says of the atoms that the field leads to, for each atom of its signature.
pub fn add_unary(
    alloc: Global,
    formulas: &mut Vec<Formula>,
    number: usize,
    field: &Field,
) -> Result<(), AllocError>
    ensures { IfOk result (λ _. Says formulas.old.items formulas.new.items (unary_says number (field_view field.now))) }
{
    if bound_arity(&field.bound)? != 1 {
        return Ok(());
    }
    let reached = join(alloc, Expression::Var(0), relation(number)?)?;
    let says = word_before(alloc, field.mark, reached)?;
    Ok(add_for_all(alloc, formulas, field.owner, says)?)
}

// What the word before a unary bound says of an expression: that of `one`, where there is no word.
fn word_before(
    alloc: Global,
    mark: Option<MultiplicityWord>,
    e: Expression,
) -> Result<Option<Formula>, AllocError>
    ensures { IfOk result (λ f. option_to_list (option_map formula_tree f) ≡ word_before mark (expression_tree e)) }
{
    match mark {
        None => Ok(Some(one_of(alloc, e)?)),
        Some(mark) => marked(alloc, Some(mark), e),
    }
}

/// Adds what the words beside a bound's arrow say.
pub fn add_arrow(
    alloc: Global,
    formulas: &mut Vec<Formula>,
    model: &Named,
    room: &mut Room,
    number: usize,
    field: &Field,
) -> Result<(), LowerStop>
    ensures { IfOk result (λ _. Says formulas.old.items formulas.new.items (arrow_says (base_of (named_view model.now)) number (field_view field.now) (sides_of (phrase_view field.now.bound)))) }
{
    match sides(&field.bound) {
        None => Ok(()),
        Some((left, right)) => {
            add_right(alloc, formulas, model, room, number, field, left)?;
            Ok(add_left(alloc, formulas, model, room, number, field, right)?)
        }
    }
}

// Adds what the word of the right side says of the atoms that the field leads to.
fn add_right(
    alloc: Global,
    formulas: &mut Vec<Formula>,
    model: &Named,
    room: &mut Room,
    number: usize,
    field: &Field,
    left: &Phrase,
) -> Result<(), LowerStop>
    ensures { IfOk result (λ _. Says formulas.old.items formulas.new.items (right_says (base_of (named_view model.now)) number (field_view field.now) (phrase_view left.now))) }
{
    let of_owner = join(alloc, Expression::Var(1), relation(number)?)?;
    let reached = join(alloc, Expression::Var(0), of_owner)?;
    let says = marked(alloc, field.right, reached)?;
    Ok(add_for_side(alloc, formulas, model, room, field.owner, left, says)?)
}

// Adds what the word of the left side says of the atoms from which the field leads to one of the right side.
fn add_left(
    alloc: Global,
    formulas: &mut Vec<Formula>,
    model: &Named,
    room: &mut Room,
    number: usize,
    field: &Field,
    right: &Phrase,
) -> Result<(), LowerStop>
    ensures { IfOk result (λ _. Says formulas.old.items formulas.new.items (left_says (base_of (named_view model.now)) number (field_view field.now) (phrase_view right.now))) }
{
    let of_owner = join(alloc, Expression::Var(1), relation(number)?)?;
    let reached = join(alloc, of_owner, Expression::Var(0))?;
    let says = marked(alloc, field.left, reached)?;
    Ok(add_for_side(alloc, formulas, model, room, field.owner, right, says)?)
}

// Adds what is said for each atom of a field's signature and each of one side of its bound, if anything is.
fn add_for_side(
    alloc: Global,
    formulas: &mut Vec<Formula>,
    model: &Named,
    room: &mut Room,
    owner: usize,
    side: &Phrase,
    says: Option<Formula>,
) -> Result<(), LowerStop>
    ensures { IfOk result (λ _. Says formulas.old.items formulas.new.items (map (λ g. for_all (rel owner) (for_all (expression_in (lowered (base_of (named_view model.now)) [] 1 (phrase_view side.now))) g)) (option_to_list (option_map formula_tree says)))) }
{
    match says {
        None => Ok(()),
        Some(says) => {
            let domain = bodies::expression(alloc, model, room, 1, side)?;
            let inner = for_all(alloc, domain, says)?;
            Ok(add_for_all(alloc, formulas, owner, Some(inner))?)
        }
    }
}
