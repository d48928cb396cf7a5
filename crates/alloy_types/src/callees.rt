// Predicates and functions.
ghost use Rattle.std.specs.Prelude.{◌≡◌};
ghost use Rattle.named_model.specs.View.{phrase_view, meaning_view, callee_view};
ghost use Rattle.model_types.specs.Models.{meaning_settled, callee_settled};
ghost use Rattle.overload_resolution.specs.Settling.Told.{Gives};
ghost use Rattle.overload_resolution.specs.Scopes.Declaring.{declared_by, AreTables};
ghost use Rattle.alloy_types.specs.Meanings.{shared_in_meaning, value_settled};

use crate::parts::relation;
use model_types::TypeFault;
use model_types::part_sorts::places::first_place;
use named_model::named::{Callee, Meaning};
use named_model::phrase::Phrase;
use overload_resolution::settled_parts::{domains, formulas};
use overload_resolution::shared_names::walk::{is_among, is_in, is_in_domains};
use overload_resolution::typed_scopes::{Locals, Scope, Setting};
use std::alloc::Global;

// A predicate or a function with its shared names settled.
pub fn callee_settled(
    alloc: Global,
    setting: &Setting,
    scope: &mut Scope,
    callee: &Callee,
) -> Result<Callee, TypeFault>
    requires { AreTables setting.now }
    ensures { Gives callee_view result (callee_settled (declared_by setting.now) (callee_view callee.now)) }
{
    scope.locals = Locals::new(alloc);
    let asked = is_in_domains(&callee.parameters) || is_in_meaning(&callee.meaning);
    let parameters = domains(alloc, setting, scope, false, asked, &callee.parameters)?;
    let meaning = meaning_settled(alloc, setting, scope, &callee.meaning)?;
    Ok(Callee {
        place: callee.place,
        parameters,
        meaning,
    })
}

// Whether a name of several fields stands in what a predicate or a function stands for.
fn is_in_meaning(meaning: &Meaning) -> bool
    ensures { result ≡ shared_in_meaning (meaning_view meaning.now) }
{
    match meaning {
        Meaning::Formulas(formulas) => is_among(formulas),
        Meaning::Value(range, body) => is_in(range) || is_in(body),
    }
}

// What a predicate or a function stands for, with its shared names settled.
fn meaning_settled(
    alloc: Global,
    setting: &Setting,
    scope: &mut Scope,
    meaning: &Meaning,
) -> Result<Meaning, TypeFault>
    requires { AreTables setting.now }
    ensures { Gives meaning_view result (meaning_settled (declared_by setting.now) scope.old.locals (meaning_view meaning.now)) }
{
    match meaning {
        Meaning::Formulas(phrases) => {
            Ok(Meaning::Formulas(formulas(alloc, setting, scope, phrases)?))
        }
        Meaning::Value(range, body) => {
            let (range, body) = value_settled(alloc, setting, scope, range, body)?;
            Ok(Meaning::Value(range, body))
        }
    }
}

// A range, and a body of the same arity.
fn value_settled(
    alloc: Global,
    setting: &Setting,
    scope: &mut Scope,
    range: &Phrase,
    body: &Phrase,
) -> Result<(Phrase, Phrase), TypeFault>
    requires { AreTables setting.now }
    ensures { Gives (λ r. (phrase_view r.0, phrase_view r.1)) result (value_settled (declared_by setting.now) scope.old.locals (phrase_view range.now) (phrase_view body.now)) }
{
    let (range, wanted) = relation(alloc, setting, scope, range)?;
    let place = first_place(body);
    let (body, arity) = relation(alloc, setting, scope, body)?;
    if wanted != arity {
        return Err(TypeFault::Arity { place });
    }
    Ok((range, body))
}
