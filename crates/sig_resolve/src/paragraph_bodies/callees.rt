// Predicates and functions.
ghost use Rattle.std.specs.Prelude.{◌≡◌, [], ◌∷◌, map, OnOk};
ghost use Rattle.alloy_syntax.specs.Tree as tree;
ghost use Rattle.alloy_syntax.specs.View.{declaration_view, block_view, function_view};
ghost use Rattle.named_model.specs.Declarations.{callees_named};
ghost use Rattle.named_model.specs.Faults.{body_faults};
ghost use Rattle.named_model.specs.View.{callee_view};
ghost use Rattle.name_tables.specs.Told.{Answers};

use crate::body_names::{expression, formulas, leave_until, parameters};
use alloy_syntax::tree::{Block, Declaration, Function, Name};
use name_tables::Names;
use named_model::NameFault;
use named_model::named::{Callee, Meaning};
use std::alloc::Global;

// A predicate. No local name is in force before or behind it.
pub fn predicate(
    alloc: Global,
    names: &mut Names,
    name: &Name,
    declarations: &[Declaration],
    block: &Block,
) -> Result<Callee, NameFault>
    requires global { names.old.locals ≡ [] }
    ensures value { Answers result (body_faults names.old.globals (tree.predicate name.now (map declaration_view declarations.now) (block_view block.now))) (λ x. callee_view x ∷ [] ≡ callees_named names.old.globals (tree.predicate name.now (map declaration_view declarations.now) (block_view block.now))) }
    ensures names { OnOk result (names.new ≡ names.old) }
{
    let domains = parameters(alloc, names, declarations)?;
    let body = formulas(alloc, names, &block.formulas)?;
    leave_until(names, 0);
    Ok(Callee {
        place: name.place,
        parameters: domains,
        meaning: Meaning::Formulas(body),
    })
}

// A function. No local name is in force before or behind it.
pub fn function(alloc: Global, names: &mut Names, function: &Function) -> Result<Callee, NameFault>
    requires global { names.old.locals ≡ [] }
    ensures value { Answers result (body_faults names.old.globals (function_view function.now)) (λ x. callee_view x ∷ [] ≡ callees_named names.old.globals (function_view function.now)) }
    ensures names { OnOk result (names.new ≡ names.old) }
{
    let domains = parameters(alloc, names, &function.parameters)?;
    let range = expression(alloc, names, &function.range)?;
    let body = expression(alloc, names, &function.body)?;
    leave_until(names, 0);
    Ok(Callee {
        place: function.name.place,
        parameters: domains,
        meaning: Meaning::Value(range, body),
    })
}
