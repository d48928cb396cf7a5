// What is known of one predicate or function.
ghost use Rattle.std.specs.Prelude.{◌≡◌, ℕ, [], ◌++◌, ◌||◌, map, replicate, option_map, IfOk, OnOk};
ghost use Rattle.named_model.specs.Phrase.{PhraseTree};
ghost use Rattle.named_model.specs.View.{phrase_view, meaning_view, callee_view};
ghost use Rattle.model_types.specs.Typing.{settled};
ghost use Rattle.model_types.specs.Models.{header_of};
ghost use Rattle.model_types.specs.Parts.Kinds.{kind_view};
ghost use Rattle.overload_resolution.specs.Names.Shared.{shared_in_domains};
ghost use Rattle.overload_resolution.specs.Scopes.Declaring.{declared_by, AreTables};
ghost use Rattle.alloy_types.specs.Headers.Bodies.{tree_of, body_in, body_of};
ghost use Rattle.alloy_types.specs.Calls.Groups.{arities_of, group_view};
ghost use Rattle.overload_resolution.specs.Parts.Given.{relation_view};
ghost use Rattle.alloy_types.specs.Calls.Meanings.{shared_in_meaning, kind_in, kind_with};

use crate::known_callees::groups::{Group, groups_in, known_relation, unless_memory};
use model_types::part_sorts::Kind;
use named_model::named::{Callee, Meaning};
use named_model::phrase::Phrase;
use overload_resolution::settled_parts::part;
use overload_resolution::shared_fields::Tops;
use overload_resolution::shared_names::Header;
use overload_resolution::shared_names::walk::{is_in, is_in_domains};
use overload_resolution::typed_scopes::{Scope, Setting};
use std::alloc::{AllocError, Global};

/// The header of a predicate or a function, and the body of a function in which no name is shared, where it has no fault. A
/// domain with a fault counts as unary and of no type, and so does a range. What the local names are doesn't matter.
pub fn callee_known(
    alloc: Global,
    setting: &Setting,
    scope: &mut Scope,
    callee: &Callee,
) -> Result<(Header, Option<Phrase>), AllocError>
    requires { AreTables setting.now }
    ensures parameters { IfOk result (λ r. r.0.parameters.items ≡ (header_of (declared_by setting.now) (callee_view callee.now)).parameters) }
    ensures kind { IfOk result (λ r. kind_view r.0.kind ≡ (header_of (declared_by setting.now) (callee_view callee.now)).kind) }
    ensures body { IfOk result (λ r. option_map phrase_view r.1 ≡ body_of (declared_by setting.now) (callee_view callee.now)) }
{
    let asked = is_asked(callee);
    let groups = groups_in(alloc, setting, scope, asked, &callee.parameters)?;
    let parameters = arities(alloc, groups.as_slice())?;
    let (kind, body) = meaning_known(alloc, setting, scope, &callee.meaning)?;
    Ok((Header { parameters, kind }, body))
}

// Whether a name of several fields stands in a predicate or a function, as far as its header or the body of a function asks.
fn is_asked(callee: &Callee) -> bool
    ensures { result ≡ shared_in_domains (callee_view callee.now).parameters || shared_in_meaning (callee_view callee.now).meaning }
{
    is_in_domains(&callee.parameters) || is_in_meaning(&callee.meaning)
}

// Whether a name of several fields stands in what a predicate or a function stands for, as far as its header asks.
fn is_in_meaning(meaning: &Meaning) -> bool
    ensures { result ≡ shared_in_meaning (meaning_view meaning.now) }
{
    match meaning {
        Meaning::Formulas(_) => false,
        Meaning::Value(range, body) => is_in(range) || is_in(body),
    }
}

// What a call is, and the body.
fn meaning_known(
    alloc: Global,
    setting: &Setting,
    scope: &mut Scope,
    meaning: &Meaning,
) -> Result<(Kind, Option<Phrase>), AllocError>
    requires { AreTables setting.now }
    ensures kind { IfOk result (λ r. kind_view r.0 ≡ kind_in (declared_by setting.now) scope.old.locals (meaning_view meaning.now)) }
    ensures body { IfOk result (λ r. option_map phrase_view r.1 ≡ body_in (declared_by setting.now) scope.old.locals (meaning_view meaning.now)) }
{
    match meaning {
        Meaning::Formulas(_) => Ok((Kind::Formula, None)),
        Meaning::Value(range, body) => {
            let range = known_relation(alloc, setting, scope, range)?;
            let body = known_body(alloc, setting, scope, body)?;
            Ok((range_kind(&range), body))
        }
    }
}

// What a call of a function is that has this range.
fn range_kind(range: &Option<(Phrase, usize)>) -> Kind
    ensures { kind_view result ≡ kind_with (option_map relation_view range.now) }
{
    match range {
        Some((_, arity)) => Kind::Relation(*arity),
        None => Kind::Relation(1),
    }
}

// A body, where it has no fault.
fn known_body(
    alloc: Global,
    setting: &Setting,
    scope: &mut Scope,
    body: &Phrase,
) -> Result<Option<Phrase>, AllocError>
    requires { AreTables setting.now }
    ensures { IfOk result (λ b. option_map phrase_view b ≡ tree_of (settled (declared_by setting.now) scope.old.locals [] (phrase_view body.now))) }
{
    let none = Tops::new(alloc);
    match part(alloc, setting, scope, &none, body) {
        Ok((body, _)) => Ok(Some(body)),
        Err(fault) => {
            unless_memory(fault)?;
            Ok(None)
        }
    }
}

// The arities of the parameters, as far as they are known.
fn arities(alloc: Global, groups: &[Group]) -> Result<Vec<Option<usize>>, AllocError>
    ensures { IfOk result (λ ns. ns.items ≡ arities_of (map group_view groups.now)) }
{
    let mut arities = Vec::new(alloc);
    for group in groups {
        let arity = arity(&group.relation);
        add(&mut arities, group.count, arity)?;
    }
    Ok(arities)
}

fn arity(relation: &Option<(Phrase, usize)>) -> Option<usize>
    ensures { result ≡ option_map (λ (r : PhraseTree × ℕ). r.1) (option_map relation_view relation.now) }
{
    match relation {
        Some((_, arity)) => Some(*arity),
        None => None,
    }
}

// So many parameters of an arity more.
fn add(
    arities: &mut Vec<Option<usize>>,
    count: usize,
    arity: Option<usize>,
) -> Result<(), AllocError>
    ensures { OnOk result (arities.new.items ≡ arities.old.items ++ replicate count arity) }
{
    for _ in 0..count {
        arities.push(arity)?;
    }
    Ok(())
}
