// What names are.
ghost use Rattle.std.specs.Prelude.{Some};
ghost use Rattle.model_types.specs.Typing.{referent_settled, is_field};
ghost use Rattle.overload_resolution.specs.Scopes.Declaring.{declared_by};
ghost use Rattle.overload_resolution.specs.Settling.Told.{Gives};
ghost use Rattle.overload_resolution.specs.Scopes.Given.{settled_view, field_with};

use crate::shared_fields::Tops;
use crate::typed_scopes::scope::Scope;
use crate::typed_scopes::setting::Setting;
use alloy_lex::Place;
use model_types::TypeFault;
use model_types::part_sorts::Kind;
use named_model::phrase::{Phrase, Referent};

/// What a name at the place is; a shared one is the field of its name that belongs to one of these signatures.
pub fn referent_settled(
    setting: &Setting,
    scope: &Scope,
    tops: &Tops,
    place: Place,
    referent: Referent,
) -> Result<(Phrase, Kind), TypeFault>
    ensures { Gives settled_view result (referent_settled (declared_by setting.now) scope.now.locals tops.now place referent) }
{
    match referent {
        Referent::Signature(number) => {
            if number < setting.signatures.len() {
                Ok((Phrase::Refers(place, referent), Kind::Relation(1)))
            } else {
                Err(TypeFault::Sort { place })
            }
        }
        Referent::Field(number) => field(setting, place, number),
        Referent::Shared(number) => {
            let chosen = setting.fields.chosen(tops, place, number)?;
            field(setting, place, chosen)
        }
        Referent::Local(number) => match scope.locals.arity(number) {
            Some(arity) => Ok((Phrase::Refers(place, referent), Kind::Relation(arity))),
            None => Err(TypeFault::Sort { place }),
        },
    }
}

// What the field of a number is.
fn field(setting: &Setting, place: Place, number: usize) -> Result<(Phrase, Kind), TypeFault>
    ensures { Gives settled_view result (is_field (declared_by setting.now) place number) }
{
    let arity = setting.fields.arity(number);
    match arity {
        Some(arity) => field_of(place, number, arity),
        None => Err(TypeFault::Sort { place }),
    }
}

// The field of a number, which has this arity.
fn field_of(place: Place, number: usize, arity: usize) -> Result<(Phrase, Kind), TypeFault>
    ensures { Gives settled_view result (field_with place number (Some arity)) }
{
    Ok((
        Phrase::Refers(place, Referent::Field(number)),
        Kind::Relation(arity),
    ))
}
