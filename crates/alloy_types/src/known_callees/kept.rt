// The types of functions without parameters, which are kept once they are known.
ghost use Rattle.std.specs.Prelude.{◌≡◌, ◌+◌, [], option_map, IfOk, IfSome};
ghost use Rattle.named_model.specs.View.{phrase_view};
ghost use Rattle.model_types.specs.Typing.{type_in};
ghost use Rattle.model_types.specs.Bounds.Same.{AreSame};
ghost use Rattle.overload_resolution.specs.Scopes.Declaring.{declared_by, AreTables};
ghost use Rattle.alloy_types.specs.Calls.Known.{IsKept};

use model_types::bounding_types::BoundingType;
use named_model::named::{Callee, Command, Meaning, Named, Target};
use named_model::phrase::Phrase;
use overload_resolution::expression_types::KeptType;
use overload_resolution::shared_names::Header;
use overload_resolution::shared_names::walk::{is_among, is_in, is_in_domains};
use overload_resolution::typed_scopes::types::type_inside;
use overload_resolution::typed_scopes::{Locals, Scope, Setting};
use std::alloc::{AllocError, Global};

// The most lists that are looked at for one type that is kept.
const FEW_LOOKS: u32 = 65_536;

// So many looks are left to types that a shared name asks for.
const SPARED_LOOKS: u32 = 1_048_576;

// Whether a name of several fields stands in a model, so that types are asked for.
pub fn is_asked(model: &Named) -> bool {
    model.callees.iter().any(|callee| is_in_callee(callee))
        || model.facts.iter().any(|fact| is_among(&fact.formulas))
        || model
            .assertions
            .iter()
            .any(|assertion| is_among(&assertion.formulas))
        || model.commands.iter().any(|command| is_in_command(command))
}

fn is_in_callee(callee: &Callee) -> bool {
    is_in_domains(&callee.parameters)
        || match &callee.meaning {
            Meaning::Formulas(formulas) => is_among(formulas),
            Meaning::Value(range, body) => is_in(range) || is_in(body),
        }
}

fn is_in_command(command: &Command) -> bool {
    match &command.target {
        Target::Block(formulas) => is_among(formulas),
        Target::Predicate(_) | Target::Assertion(_) => false,
    }
}

// The type of a function with this header and this body, if it is kept: where it has no parameters, and where few lists are
// looked at for it. Calls have it as deep as they may be nested from its place on.
pub fn kept_type(
    alloc: Global,
    setting: &Setting,
    scope: &mut Scope,
    place: usize,
    header: &Header,
    body: &Option<Phrase>,
) -> Option<KeptType>
    requires { AreTables setting.now }
    ensures { IfSome result (IsKept (declared_by setting.now) (place + 1) (option_map phrase_view body.now)) }
{
    if !header.parameters.is_empty() {
        return None;
    }
    match body {
        Some(body) => body_type(alloc, setting, scope, place, body),
        None => None,
    }
}

// The same of a function with this body.
fn body_type(
    alloc: Global,
    setting: &Setting,
    scope: &mut Scope,
    place: usize,
    body: &Phrase,
) -> Option<KeptType>
    requires { AreTables setting.now }
    ensures { IfSome result (λ k. (k.calls ≡ place + 1) × AreSame k.lists (type_in (declared_by setting.now) [] (phrase_view body.now))) }
{
    scope.locals = Locals::new(alloc);
    let calls = place.checked_add(1)?;
    match type_by_few_looks(alloc, setting, scope, body) {
        Ok(lists) => Some(KeptType { calls, lists }),
        Err(_) => None,
    }
}

// The type of a part, where few lists are looked at for it.
fn type_by_few_looks(
    alloc: Global,
    setting: &Setting,
    scope: &mut Scope,
    phrase: &Phrase,
) -> Result<BoundingType, AllocError>
    requires { AreTables setting.now }
    ensures { IfOk result (λ t. AreSame t (type_in (declared_by setting.now) scope.old.locals (phrase_view phrase.now))) }
{
    let left = scope.work.left;
    let few = left.saturating_sub(SPARED_LOOKS).min(FEW_LOOKS);
    scope.work.left = few;
    let lists = type_inside(alloc, setting, scope, phrase);
    let looks = few.saturating_sub(scope.work.left);
    scope.work.left = left.saturating_sub(looks);
    lists
}
