// Fields.
ghost use Rattle.std.specs.Prelude.{◌≡◌, [], map};
ghost use Rattle.named_model.specs.Phrase.{links_of};
ghost use Rattle.named_model.specs.View.{field_view, phrase_view, link_view};
ghost use Rattle.model_types.specs.Models.{unary, sides_of, only_link, sides_unary, arrow_checked, field_checked, wants_unary};
ghost use Rattle.overload_resolution.specs.Settling.Told.{Gives};
ghost use Rattle.overload_resolution.specs.Scopes.Declaring.{declared_by, AreTables};

use crate::parts::relation;
use alloy_syntax::tree::{Multiplicity, MultiplicityWord};
use model_types::TypeFault;
use model_types::part_sorts::places::first_place;
use named_model::named::Field;
use named_model::phrase::{Link, Phrase};
use overload_resolution::typed_scopes::{Locals, Scope, Setting};
use std::alloc::Global;

// Whether the bound of a field has the sort and the arity that it has to have.
pub fn field_checked(
    alloc: Global,
    setting: &Setting,
    scope: &mut Scope,
    field: &Field,
) -> Result<(), TypeFault>
    requires { AreTables setting.now }
    ensures { Gives (λ done. done) result (field_checked (declared_by setting.now) (field_view field.now)) }
{
    scope.locals = Locals::new(alloc);
    let (_, arity) = relation(alloc, setting, scope, &field.bound)?;
    arrow_checked(alloc, setting, scope, field)?;
    if wants_unary(field.mark) && arity != 1 {
        return Err(TypeFault::NotUnary {
            place: first_place(&field.bound),
        });
    }
    if arity > 2 {
        return Err(TypeFault::ArityTooLarge { place: field.place });
    }
    Ok(())
}

// Whether the word before a bound wants it to be a set.
fn wants_unary(mark: Option<MultiplicityWord>) -> bool
    ensures { result ≡ wants_unary mark }
{
    match mark {
        Some(mark) => !matches!(mark.multiplicity, Multiplicity::Set),
        None => false,
    }
}

// Whether the sides of an arrow with a word beside it are sets.
fn arrow_checked(
    alloc: Global,
    setting: &Setting,
    scope: &mut Scope,
    field: &Field,
) -> Result<(), TypeFault>
    requires { AreTables setting.now }
    ensures { Gives (λ done. done) result (arrow_checked (declared_by setting.now) (field_view field.now)) }
{
    if field.left.is_some() || field.right.is_some() {
        sides_unary(alloc, setting, scope, &field.bound)
    } else {
        Ok(())
    }
}

// Whether the two sides of a bound that is one arrow, in brackets or not, are sets.
fn sides_unary(
    alloc: Global,
    setting: &Setting,
    scope: &mut Scope,
    bound: &Phrase,
) -> Result<(), TypeFault>
    requires { AreTables setting.now }
    ensures { Gives (λ done. done) result (sides_unary (declared_by setting.now) (sides_of (phrase_view bound.now))) }
{
    match bound {
        Phrase::Bracketed(_, inner) => sides_unary(alloc, setting, scope, inner),
        Phrase::Chain(first, links) => both_unary(alloc, setting, scope, first, links),
        _ => Ok(()),
    }
}

// Whether the two sides of a bound that is one link are sets.
fn both_unary(
    alloc: Global,
    setting: &Setting,
    scope: &mut Scope,
    first: &Phrase,
    links: &[Link],
) -> Result<(), TypeFault>
    requires { AreTables setting.now }
    ensures { Gives (λ done. done) result (sides_unary (declared_by setting.now) (only_link (phrase_view first.now) (links_of (map link_view links.now)))) }
{
    match links {
        [link] => {
            unary(alloc, setting, scope, first)?;
            unary(alloc, setting, scope, &link.operand)
        }
        _ => Ok(()),
    }
}

// Whether a part is a set.
fn unary(
    alloc: Global,
    setting: &Setting,
    scope: &mut Scope,
    phrase: &Phrase,
) -> Result<(), TypeFault>
    requires { AreTables setting.now }
    ensures { Gives (λ done. done) result (unary (declared_by setting.now) (phrase_view phrase.now)) }
{
    scope.locals = Locals::new(alloc);
    let (_, arity) = relation(alloc, setting, scope, phrase)?;
    if arity != 1 {
        return Err(TypeFault::NotUnary {
            place: first_place(phrase),
        });
    }
    Ok(())
}
