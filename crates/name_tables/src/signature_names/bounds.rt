// Bounds of fields.
ghost use Rattle.std.specs.Prelude.{◌≡◌, map};
ghost use Rattle.alloy_syntax.specs.Tree.{bound_named, unions_of, arrows_of};
ghost use Rattle.alloy_syntax.specs.View.{bound_view, arrow_view};
ghost use Rattle.alloy_syntax.specs.declared.tree.Operator.TheVariants.{Union, Product};
ghost use Rattle.named_model.specs.Declarations.{bound_resolved, unions_resolved, arrows_resolved, words_of, words_beside};
ghost use Rattle.named_model.specs.Faults.{bound_faults, union_faults, arrow_faults};
ghost use Rattle.named_model.specs.Phrase.{links_of};
ghost use Rattle.named_model.specs.View.{phrase_view, link_view};
ghost use Rattle.name_tables.specs.Told.{Answers};
ghost use Rattle.name_tables.specs.Signatures.Bounds.{placed_view};

use crate::Names;
use crate::signature_names::room::spend;
use crate::signature_names::signatures::signature;
use alloy_lex::Place;
use alloy_syntax::tree::{Bound, BoundArrow, MultiplicityWord, Name, Operator};
use named_model::NameFault;
use named_model::phrase::{Link, Phrase, Referent};
use std::alloc::Global;

// A bound, or the first of its names that is no signature's. It takes room for each of its parts.
#[cycle(bounds)]
pub fn bound(
    alloc: Global,
    names: &Names,
    room: &mut usize,
    bound: &Bound,
) -> Result<Phrase, NameFault>
    ensures { Answers result (bound_faults names.now.globals (bound_view bound.now)) (λ x. phrase_view x ≡ bound_resolved names.now.globals (bound_view bound.now)) }
{
    spend(room, 1)?;
    match bound {
        Bound::Named(name) => named(names, name),
        Bound::Bracketed(place, inner) => {
            Ok(Phrase::Bracketed(*place, boxed(alloc, names, room, inner)?))
        }
        Bound::Union(first, others) => {
            let first = boxed(alloc, names, room, first)?;
            let links = unions(alloc, names, room, others)?;
            Ok(Phrase::Chain(first, links))
        }
        Bound::Arrows(first, others) => {
            let first = boxed(alloc, names, room, first)?;
            let links = arrows(alloc, names, room, others)?;
            Ok(Phrase::Chain(first, links))
        }
    }
}

// A bound that is the name of a signature.
fn named(names: &Names, name: &Name) -> Result<Phrase, NameFault>
    ensures { Answers result (bound_faults names.now.globals (bound_named name.now)) (λ x. phrase_view x ≡ bound_resolved names.now.globals (bound_named name.now)) }
{
    let number = signature(names, name)?;
    Ok(Phrase::Refers(name.place, Referent::Signature(number)))
}

// A bound in its box.
#[cycle(bounds)]
fn boxed(
    alloc: Global,
    names: &Names,
    room: &mut usize,
    inner: &Bound,
) -> Result<Box<Phrase>, NameFault>
    ensures { Answers result (bound_faults names.now.globals (bound_view inner.now)) (λ x. phrase_view x.value ≡ bound_resolved names.now.globals (bound_view inner.now)) }
{
    let phrase = bound(alloc, names, room, inner)?;
    Ok(Box::new(alloc, phrase)?)
}

// The operands of a union behind the first one.
#[cycle(bounds)]
fn unions(
    alloc: Global,
    names: &Names,
    room: &mut usize,
    operands: &[(Place, Bound)],
) -> Result<Vec<Link>, NameFault>
    ensures { Answers result (union_faults names.now.globals (unions_of (map placed_view operands.now))) (λ xs. links_of (map link_view xs.items) ≡ unions_resolved names.now.globals (unions_of (map placed_view operands.now))) }
{
    let mut links = Vec::new(alloc);
    for operand in operands {
        let inner = bound(alloc, names, room, &operand.1)?;
        links.push(link(operand.0, inner))?;
    }
    Ok(links)
}

// An operand of a union behind others.
fn link(place: Place, operand: Phrase) -> Link
    ensures { link_view result ≡ record { operator = Union; place = place; operand = phrase_view operand } }
{
    Link {
        operator: Operator::Union,
        place,
        operand,
    }
}

// The sides of arrows behind the first one.
#[cycle(bounds)]
fn arrows(
    alloc: Global,
    names: &Names,
    room: &mut usize,
    arrows: &[BoundArrow],
) -> Result<Vec<Link>, NameFault>
    ensures { Answers result (arrow_faults names.now.globals (arrows_of (map arrow_view arrows.now))) (λ xs. links_of (map link_view xs.items) ≡ arrows_resolved names.now.globals (arrows_of (map arrow_view arrows.now))) }
{
    let mut links = Vec::new(alloc);
    for arrow in arrows {
        let link = side_of(alloc, names, room, arrow)?;
        links.push(link)?;
    }
    Ok(links)
}

#[cycle(bounds)]
fn side_of(
    alloc: Global,
    names: &Names,
    room: &mut usize,
    arrow: &BoundArrow,
) -> Result<Link, NameFault>
    ensures { Answers result (bound_faults names.now.globals (arrow_view arrow.now).side) (λ x. link_view x ≡ record { operator = Product; place = (arrow_view arrow.now).place; operand = bound_resolved names.now.globals (arrow_view arrow.now).side }) }
{
    let operand = bound(alloc, names, room, &arrow.side)?;
    Ok(Link {
        operator: Operator::Product,
        place: arrow.place,
        operand,
    })
}

// The words beside the first arrow of a bound that is an arrow, in brackets or not.
#[cycle(words)]
pub fn words_beside(bound: &Bound) -> (Option<MultiplicityWord>, Option<MultiplicityWord>)
    ensures { result ≡ words_beside (bound_view bound.now) }
{
    match bound {
        Bound::Named(_) => (None, None),
        Bound::Bracketed(_, inner) => words_beside(inner),
        Bound::Union(_, _) => (None, None),
        Bound::Arrows(_, arrows) => words_of(arrows),
    }
}

// The words beside the first one of these arrows.
fn words_of(arrows: &[BoundArrow]) -> (Option<MultiplicityWord>, Option<MultiplicityWord>)
    ensures { result ≡ words_of (arrows_of (map arrow_view arrows.now)) }
{
    match arrows.first() {
        Some(arrow) => words_at(arrow),
        None => (None, None),
    }
}

fn words_at(arrow: &BoundArrow) -> (Option<MultiplicityWord>, Option<MultiplicityWord>)
    ensures { result ≡ ((arrow_view arrow.now).left, (arrow_view arrow.now).right) }
{
    (arrow.left, arrow.right)
}
