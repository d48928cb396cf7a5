// What is said of fields.
ghost use Rattle.std.specs.Prelude.{◌≡◌, [], ◌∷◌, IfOk, length, map};
ghost use Rattle.rel_formula.specs.Kernel.{rel, within, product};
ghost use Rattle.named_model.specs.View.{phrase_view, field_view, named_view};
ghost use Rattle.lowering_rules.specs.Parts.{expression_in};
ghost use Rattle.lowering_rules.specs.Lowering.{base_of, field_number, lowered};
ghost use Rattle.lowering_rules.specs.Formula.{field_says, fields_say};
ghost use Rattle.rel_lower.specs.Signatures.Said.{Says};

use crate::field_formulas::words::{add_arrow, add_unary};
use crate::signature_formulas::relations::relation;
use body_lowering::kernel_parts::expressions::product;
use body_lowering::{Room, bodies};
use lowering_rules::{LowerStop, TooLarge};
use named_model::Named;
use named_model::named::Field;
use rel_formula::{Comparison, Formula};
use std::alloc::Global;

/// Adds what is said of all fields of a model, in order of declaration. A relation's number above 255 is answered as want of
/// memory; bounds may be too large to build.
pub fn add_fields(
    alloc: Global,
    formulas: &mut Vec<Formula>,
    model: &Named,
    room: &mut Room,
) -> Result<(), LowerStop>
    ensures { IfOk result (λ _. Says formulas.old.items formulas.new.items (fields_say (base_of (named_view model.now)) (field_number (length model.now.signatures.items) 0) (map field_view model.now.fields.items))) }
{
    let first = model.signatures.len();
    for field in 0..model.fields.len() {
        let number = first.checked_add(field).ok_or(TooLarge)?;
        add_field(alloc, formulas, model, room, number, &model.fields[field])?;
    }
    Ok(())
}

/// Adds what is said of the field whose relation has that number: that it lies in the product of its signature and its bound,
/// and what the words say that stand in the bound.
pub fn add_field(
    alloc: Global,
    formulas: &mut Vec<Formula>,
    model: &Named,
    room: &mut Room,
    number: usize,
    field: &Field,
) -> Result<(), LowerStop>
    ensures { IfOk result (λ _. Says formulas.old.items formulas.new.items (field_says (base_of (named_view model.now)) number (field_view field.now))) }
{
    add_bound(alloc, formulas, model, room, number, field)?;
    add_unary(alloc, formulas, number, field)?;
    Ok(add_arrow(alloc, formulas, model, room, number, field)?)
}

// Adds that a field lies in the product of its signature and its bound.
fn add_bound(
    alloc: Global,
    formulas: &mut Vec<Formula>,
    model: &Named,
    room: &mut Room,
    number: usize,
    field: &Field,
) -> Result<(), LowerStop>
    ensures { IfOk result (λ _. Says formulas.old.items formulas.new.items (within (rel number) (product (rel field.now.owner) (expression_in (lowered (base_of (named_view model.now)) [] 0 (phrase_view field.now.bound)))) ∷ [])) }
{
    let bound = bodies::expression(alloc, model, room, 0, &field.bound)?;
    let tuples = product(alloc, relation(field.owner)?, bound)?;
    Ok(formulas.push(Formula::Compared(Comparison::In, relation(number)?, tuples))?)
}
