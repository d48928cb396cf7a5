// Predicates and functions, as far as calls ask.
ghost use Rattle.std.specs.Prelude.{◌≡◌, ℕ, List, option_map, option_copied, drop};
ghost use Rattle.alloy_lex.specs.declared.token.Place.{Place};
ghost use Rattle.model_types.specs.Bounding.{Lists};
ghost use Rattle.model_types.specs.Typing as typing;
ghost use Rattle.model_types.specs.Parts.Kinds.{kind_seen};
ghost use Rattle.overload_resolution.specs.Names.Headers.{with_type, argument_fits};

use alloy_lex::Place;
use model_types::TypeFault;
use model_types::part_sorts::Kind;

/// The arities of the parameters of a predicate or a function, as far as their domains have any, and what a call is.
#[derive(Drop)]
pub struct Header {
    pub parameters: Vec<Option<usize>>,
    pub kind: Kind,
}

/// What a call at the place is, with arguments of these arities, each of which begins at its place; whatever type the call has.
pub fn call_kind(
    place: Place,
    header: Option<&Header>,
    arguments: &[(usize, Place)],
) -> Result<Kind, TypeFault>
    ensures { (type : List Lists → Lists) → kind_seen result ≡ typing.call_kind place (option_map (with_type type) (option_copied header.entry)) arguments.now }
{
    match header {
        Some(header) => {
            arguments_fit(place, &header.parameters, arguments)?;
            Ok(header.kind)
        }
        None => Err(TypeFault::Sort { place }),
    }
}

// Whether arguments fit parameters.
fn arguments_fit(
    place: Place,
    parameters: &[Option<usize>],
    arguments: &[(usize, Place)],
) -> Result<(), TypeFault>
    ensures { result ≡ typing.arguments_fit place parameters.now arguments.now }
{
    for number in 0..arguments.len() {
        argument_fits(place, parameters.get(number), arguments[number])?;
    }
    if parameters.len() > arguments.len() {
        return Err(TypeFault::Sort { place });
    }
    Ok(())
}

// Whether an argument fits its parameter, if there is one.
fn argument_fits(
    place: Place,
    parameter: Option<&Option<usize>>,
    argument: (usize, Place),
) -> Result<(), TypeFault>
    ensures { result ≡ argument_fits place (option_copied parameter.entry) argument }
{
    match parameter {
        Some(Some(arity)) if *arity != argument.0 => Err(TypeFault::Arity { place: argument.1 }),
        Some(_) => Ok(()),
        None => Err(TypeFault::Sort { place }),
    }
}
