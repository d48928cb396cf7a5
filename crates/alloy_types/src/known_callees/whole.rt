// What is declared in a model.
ghost use Rattle.std.specs.Prelude.{◌≡◌, ◌+◌, ◌<◌, ℕ, [], map, length, false, option_map, slice_get, slice_set, replicate, Some, None, IfOk, OnOk, IfSome};
ghost use Rattle.named_model.specs.Model.{CalleeTree};
ghost use Rattle.named_model.specs.Faults.{callees_of};
ghost use Rattle.named_model.specs.View.{phrase_view, callee_view, named_view};
ghost use Rattle.model_types.specs.Models.{header_of, declared_in};
ghost use Rattle.reference_cycles.specs.Cycles.Orders.{IsOrder};
ghost use Rattle.overload_resolution.specs.Expressions.Types.{bodies_view};
ghost use Rattle.alloy_types.specs.Headers.Bodies.{body_of};
ghost use Rattle.alloy_types.specs.Declarations.Same.{AreSameDeclared};
ghost use Rattle.overload_resolution.specs.Scopes.Declaring.{declared_by, alone, AreTables};
ghost use Rattle.alloy_types.specs.Calls.Known.{IsHeader, IsKept};
ghost use Rattle.alloy_types.specs.Calls.Ready.{HasFields, IsReady, AreKept};

use crate::known_callees::callee::callee_known;
use crate::known_callees::fields::fields_known;
use crate::known_callees::kept::{is_asked, kept_type};
use model_types::part_sorts::Kind;
use named_model::named::{Callee, Named};
use named_model::phrase::Phrase;
use overload_resolution::expression_types::KeptType;
use overload_resolution::shared_names::Header;
use overload_resolution::typed_scopes::{Scope, Setting};
use reference_cycles::number_cycles::order_of;
use reference_cycles::recursive_calls::rows;
use std::alloc::{AllocError, Global};

/// What is declared in a model: its signatures, its fields with their types, and what is known of its predicates and functions.
/// Want of memory is also answered where a predicate or a function calls itself over one or more steps, or one that isn't
/// there, and where a bounding type that a shared name asks for would have too many lists, or looks at more of them than are left
/// in the scope.
pub fn declared<'a>(
    alloc: Global,
    scope: &mut Scope,
    model: &'a Named,
) -> Result<Setting<'a>, AllocError>
    ensures tables { IfOk result (λ s. AreTables s) }
    ensures value { IfOk result (λ s. AreSameDeclared (declared_by s) (declared_in (named_view model.now))) }
{
    let mut setting = Setting::new(alloc, &model.signatures)?;
    put_known(alloc, scope, model, &mut setting)?;
    Ok(setting)
}

// Puts what is known of the fields, predicates and functions of a model, where nothing but its signatures is declared.
fn put_known(
    alloc: Global,
    scope: &mut Scope,
    model: &Named,
    setting: &mut Setting,
) -> Result<(), AllocError>
    requires tables { AreTables setting.old }
    requires declared { declared_by setting.old ≡ alone (named_view model.now).signatures }
    requires kept { setting.old.types.kept.items ≡ [] }
    ensures tables { OnOk result (AreTables setting.new) }
    ensures value { OnOk result (AreSameDeclared (declared_by setting.new) (declared_in (named_view model.now))) }
{
    let order = calls_order(alloc, &model.callees)?;
    fields_known(alloc, scope, model, setting)?;
    put_places(alloc, model, setting)?;
    all_known(alloc, scope, model, &order, setting)
}

// An order in which what is called comes before its callers.
fn calls_order(alloc: Global, callees: &[Callee]) -> Result<Vec<usize>, AllocError>
    ensures { IfOk result (λ order. IsOrder (map callees_of (map callee_view callees.now)) order.items) }
{
    let rows = rows(alloc, callees)?;
    order_of(alloc, &rows)
}

// Puts a place for each predicate and function, of which nothing is known yet.
fn put_places(alloc: Global, model: &Named, setting: &mut Setting) -> Result<(), AllocError>
    requires { HasFields (named_view model.now) setting.old }
    ensures { OnOk result (IsReady (named_view model.now) (λ n. false) setting.new) }
{
    let callees = model.callees.as_slice();
    let count = callees.len();
    let headers = no_headers(alloc, count)?;
    let bodies = no_bodies(alloc, count)?;
    let kept = nothing_kept(alloc, count)?;
    setting.headers = headers;
    setting.types.bodies = bodies;
    setting.types.kept = kept;
    setting.calls = count;
    Ok(())
}

fn no_headers(alloc: Global, count: usize) -> Result<Vec<Header>, AllocError>
    ensures { IfOk result (λ headers. length headers.items ≡ count) }
{
    let mut headers = Vec::new(alloc);
    for _ in 0..count {
        headers.push(Header {
            parameters: Vec::new(alloc),
            kind: Kind::Formula,
        })?;
    }
    Ok(headers)
}

fn no_bodies(alloc: Global, count: usize) -> Result<Vec<Option<Phrase>>, AllocError>
    ensures { IfOk result (λ bodies. bodies.items ≡ replicate count None) }
{
    let mut bodies = Vec::new(alloc);
    for _ in 0..count {
        bodies.push(None)?;
    }
    Ok(bodies)
}

fn nothing_kept(alloc: Global, count: usize) -> Result<Vec<Option<KeptType>>, AllocError>
    ensures { IfOk result (λ kept. kept.items ≡ replicate count None) }
{
    let mut kept = Vec::new(alloc);
    for _ in 0..count {
        kept.push(None)?;
    }
    Ok(kept)
}

// Puts what is known of the predicates and functions, in an order in which what is called comes before its callers.
fn all_known(
    alloc: Global,
    scope: &mut Scope,
    model: &Named,
    order: &[usize],
    setting: &mut Setting,
) -> Result<(), AllocError>
    requires ready { IsReady (named_view model.now) (λ n. false) setting.old }
    requires order { IsOrder (map callees_of (named_view model.now).callees) order.now }
    ensures tables { OnOk result (AreTables setting.new) }
    ensures value { OnOk result (AreSameDeclared (declared_by setting.new) (declared_in (named_view model.now))) }
{
    let asked = is_asked(model);
    for (place, number) in order.iter().enumerate() {
        let (header, body) = known_at(alloc, setting, scope, &model.callees, *number)?;
        let kept = kept_where(alloc, setting, scope, asked, place, &header, &body);
        put(setting, *number, header, body, kept);
    }
    Ok(())
}

// The header of the predicate or function of a number, and its body.
fn known_at(
    alloc: Global,
    setting: &Setting,
    scope: &mut Scope,
    callees: &[Callee],
    number: usize,
) -> Result<(Header, Option<Phrase>), AllocError>
    requires { AreTables setting.now }
    ensures there { IfOk result (λ r. number < length callees.now) }
    ensures header { IfOk result (λ r. (c : CalleeTree) → slice_get (map callee_view callees.now) number ≡ Some c → IsHeader (Some r.0) (header_of (declared_by setting.now) c)) }
    ensures body { IfOk result (λ r. (c : CalleeTree) → slice_get (map callee_view callees.now) number ≡ Some c → option_map phrase_view r.1 ≡ body_of (declared_by setting.now) c) }
{
    match callees.get(number) {
        Some(callee) => callee_known(alloc, setting, scope, callee),
        None => Err(AllocError),
    }
}

// The type of a call, where types are asked for and it is kept.
fn kept_where(
    alloc: Global,
    setting: &Setting,
    scope: &mut Scope,
    asked: bool,
    place: usize,
    header: &Header,
    body: &Option<Phrase>,
) -> Option<KeptType>
    requires { AreTables setting.now }
    ensures { IfSome result (IsKept (declared_by setting.now) (place + 1) (option_map phrase_view body.now)) }
{
    if asked {
        kept_type(alloc, setting, scope, place, header, body)
    } else {
        None
    }
}

// Puts a header, a body, and the type of a call, at the place of a number.
fn put(
    setting: &mut Setting,
    number: usize,
    header: Header,
    body: Option<Phrase>,
    kept: Option<KeptType>,
)
    requires headers { number < length setting.old.headers.items }
    requires bodies { number < length setting.old.types.bodies.items }
    requires kept { number < length setting.old.types.kept.items }
    ensures same { AreKept setting.old setting.new }
    ensures headers { setting.new.headers.items ≡ slice_set setting.old.headers.items number header }
    ensures bodies { bodies_view setting.new.types.bodies.items ≡ slice_set (bodies_view setting.old.types.bodies.items) number (option_map phrase_view body) }
    ensures kept { setting.new.types.kept.items ≡ slice_set setting.old.types.kept.items number kept }
{
    setting.headers[number] = header;
    setting.types.bodies[number] = body;
    setting.types.kept[number] = kept;
}
