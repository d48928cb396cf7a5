// Parameters of one domain.
ghost use Rattle.std.specs.Prelude.{◌≡◌, ◌≢◌, [], map, true, option_map, IfOk, OnOk};
ghost use Rattle.named_model.specs.Phrase.{domains_of};
ghost use Rattle.named_model.specs.View.{phrase_view, domain_view};
ghost use Rattle.model_types.specs.declared.fault.TypeFault.TheVariants.{Memory};
ghost use Rattle.model_types.specs.Typing.{settled, onto};
ghost use Rattle.overload_resolution.specs.Names.Shared.{shared_in_domains};
ghost use Rattle.overload_resolution.specs.Settling.Inside.{AreAlikeWhere};
ghost use Rattle.overload_resolution.specs.Scopes.Given.{settled_view};
ghost use Rattle.overload_resolution.specs.Scopes.Declaring.{declared_by, AreTables};
ghost use Rattle.alloy_types.specs.Calls.Groups.{relation_in, relation_of, entered, group_in, groups_in, behind, group_view};
ghost use Rattle.overload_resolution.specs.Parts.Given.{relation_view};

use model_types::TypeFault;
use model_types::bounding_types::BoundingType;
use model_types::part_sorts::Kind;
use named_model::phrase::{Domain, Phrase};
use overload_resolution::settled_parts::part;
use overload_resolution::shared_fields::Tops;
use overload_resolution::typed_scopes::types::enter_all;
use overload_resolution::typed_scopes::{Locals, Scope, Setting};
use std::alloc::{AllocError, Global};

/// So many parameters, and their domain with its arity, where that has no fault.
#[derive(Drop)]
pub struct Group {
    pub count: usize,
    pub relation: Option<(Phrase, usize)>,
}

/// The groups of domains. Their parameters are entered as the only local names, with types where these are asked for.
pub fn groups_in(
    alloc: Global,
    setting: &Setting,
    scope: &mut Scope,
    asked: bool,
    domains: &[Domain],
) -> Result<Vec<Group>, AllocError>
    requires tables { AreTables setting.now }
    requires asked { shared_in_domains (domains_of (map domain_view domains.now)) ≡ true → asked ≡ true }
    ensures value { IfOk result (λ gs. map group_view gs.items ≡ groups_in (declared_by setting.now) [] (domains_of (map domain_view domains.now))) }
    ensures locals { IfOk result (λ gs. AreAlikeWhere asked scope.new.locals (behind (declared_by setting.now) [] (map group_view gs.items))) }
{
    scope.locals = Locals::new(alloc);
    let mut groups = Vec::new(alloc);
    for domain in domains {
        let group = next_group(alloc, setting, scope, asked, domain)?;
        groups.push(group)?;
    }
    Ok(groups)
}

// The group of a domain. Its parameters are entered.
fn next_group(
    alloc: Global,
    setting: &Setting,
    scope: &mut Scope,
    asked: bool,
    domain: &Domain,
) -> Result<Group, AllocError>
    requires { AreTables setting.now }
    ensures value { IfOk result (λ g. group_view g ≡ group_in (declared_by setting.now) scope.old.locals (domain_view domain.now)) }
    ensures locals { IfOk result (λ g. AreAlikeWhere asked scope.new.locals (entered (declared_by setting.now) scope.old.locals (group_view g))) }
{
    let relation = known_relation(alloc, setting, scope, &domain.domain)?;
    let group = Group {
        count: domain.count,
        relation,
    };
    enter(alloc, setting, scope, asked, &group)?;
    Ok(group)
}

// A part with its arity, where it is a relation without a fault. The local names are as before.
pub fn known_relation(
    alloc: Global,
    setting: &Setting,
    scope: &mut Scope,
    phrase: &Phrase,
) -> Result<Option<(Phrase, usize)>, AllocError>
    requires { AreTables setting.now }
    ensures value { IfOk result (λ r. option_map relation_view r ≡ relation_of (settled (declared_by setting.now) scope.old.locals [] (phrase_view phrase.now))) }
    ensures locals { scope.new.locals ≡ scope.old.locals }
{
    let none = Tops::new(alloc);
    match part(alloc, setting, scope, &none, phrase) {
        Ok((relation, kind)) => Ok(with_arity(relation, kind)),
        Err(fault) => {
            unless_memory(fault)?;
            Ok(None)
        }
    }
}

// A part with its arity, where it is a relation.
fn with_arity(phrase: Phrase, kind: Kind) -> Option<(Phrase, usize)>
    ensures { option_map relation_view result ≡ relation_in (settled_view (phrase, kind)) }
{
    match kind {
        Kind::Relation(arity) => Some((phrase, arity)),
        Kind::Formula | Kind::Number | Kind::Size => None,
    }
}

// Whether a fault is one of the model.
pub fn unless_memory(fault: TypeFault) -> Result<(), AllocError>
    ensures { OnOk result (fault ≢ Memory) }
{
    match fault {
        TypeFault::Memory => Err(AllocError),
        _ => Ok(()),
    }
}

// Enters the parameters of a group, with types where these are asked for; those of an unknown domain with none.
fn enter(
    alloc: Global,
    setting: &Setting,
    scope: &mut Scope,
    asked: bool,
    group: &Group,
) -> Result<(), AllocError>
    requires { AreTables setting.now }
    ensures { OnOk result (AreAlikeWhere asked scope.new.locals (entered (declared_by setting.now) scope.old.locals (group_view group.now))) }
{
    match &group.relation {
        Some((domain, arity)) => {
            enter_all(alloc, setting, scope, asked, group.count, *arity, domain)
        }
        None => Ok(enter_unknown(alloc, scope, group.count)?),
    }
}

// Enters so many local names of which no type is known.
fn enter_unknown(alloc: Global, scope: &mut Scope, count: usize) -> Result<(), AllocError>
    ensures { OnOk result (scope.new.locals ≡ onto count (record { arity = 1; type = [] }) scope.old.locals) }
{
    for _ in 0..count {
        scope.locals.enter(1, BoundingType::new(alloc))?;
    }
    Ok(())
}
