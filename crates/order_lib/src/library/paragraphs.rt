// All that an ordering declares.
ghost use Rattle.std.specs.Prelude.{◌≡◌, ◌∷◌, ◌++◌, [], map, flat_map, OnOk};
ghost use Rattle.alloy_syntax.specs.View.{paragraph_view};
ghost use Rattle.order_lib.specs.Library as spec;

use crate::library::fields::the_signature;
use crate::library::formulas::the_fact;
use crate::library::functions::push_functions;
use crate::library::names::push;
use crate::library::predicates::push_predicates;
use alloy_syntax::tree::{Open, Paragraph};
use std::alloc::{AllocError, Global};

// Adds the signature and the fact.
#[tactic(auto, using(crate::proofs::Pushes::two_more))]
fn push_order(
    alloc: Global,
    ordering: &Open,
    paragraphs: &mut Vec<Paragraph>,
) -> Result<(), AllocError>
    ensures { OnOk result (map paragraph_view paragraphs.new.items ≡ map paragraph_view paragraphs.old.items ++ spec.the_signature ordering.now ∷ spec.the_fact ordering.now ∷ []) }
{
    push(paragraphs, the_signature(alloc, ordering)?)?;
    push(paragraphs, the_fact(alloc, ordering)?)?;
    Ok(())
}

// Adds what an ordering declares.
fn push_ordering(
    alloc: Global,
    ordering: &Open,
    paragraphs: &mut Vec<Paragraph>,
) -> Result<(), AllocError>
    ensures { OnOk result (map paragraph_view paragraphs.new.items ≡ map paragraph_view paragraphs.old.items ++ spec.paragraphs_of ordering.now) }
{
    push_order(alloc, ordering, paragraphs)?;
    push_functions(alloc, ordering, paragraphs)?;
    push_predicates(alloc, ordering, paragraphs)?;
    Ok(())
}

/// Adds what each ordering declares.
pub fn push_orderings(
    alloc: Global,
    opens: &[Open],
    paragraphs: &mut Vec<Paragraph>,
) -> Result<(), AllocError>
    ensures { OnOk result (map paragraph_view paragraphs.new.items ≡ map paragraph_view paragraphs.old.items ++ flat_map spec.paragraphs_of opens.now) }
{
    for ordering in opens {
        push_ordering(alloc, ordering, paragraphs)?;
    }
    Ok(())
}
