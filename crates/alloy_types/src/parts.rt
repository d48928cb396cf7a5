// Parts that have to be relations.
ghost use Rattle.std.specs.Prelude.{◌≡◌};
ghost use Rattle.named_model.specs.View.{phrase_view};
ghost use Rattle.overload_resolution.specs.Settling.Single.{relation_settled};
ghost use Rattle.overload_resolution.specs.Settling.Told.{Gives};
ghost use Rattle.overload_resolution.specs.Parts.Given.{relation_view};
ghost use Rattle.overload_resolution.specs.Scopes.Declaring.{declared_by, AreTables};

use model_types::TypeFault;
use model_types::part_sorts::kinds::as_relation;
use model_types::part_sorts::places::first_place;
use named_model::phrase::Phrase;
use overload_resolution::settled_parts::part;
use overload_resolution::shared_fields::Tops;
use overload_resolution::typed_scopes::{Scope, Setting};
use std::alloc::Global;

// A part with its shared names settled, which has to be a relation, with its arity.
pub fn relation(
    alloc: Global,
    setting: &Setting,
    scope: &mut Scope,
    phrase: &Phrase,
) -> Result<(Phrase, usize), TypeFault>
    requires { AreTables setting.now }
    ensures value { Gives relation_view result (relation_settled (declared_by setting.now) scope.old.locals (phrase_view phrase.now)) }
    ensures locals { scope.new.locals ≡ scope.old.locals }
{
    let none = Tops::new(alloc);
    let (relation, kind) = part(alloc, setting, scope, &none, phrase)?;
    let arity = as_relation(first_place(phrase), kind)?;
    Ok((relation, arity))
}
