// Parts.
ghost use Rattle.std.specs.Prelude.{◌≡◌, ◌||◌, List, [], map, length, true, option_map, OnOk, OnErr};
ghost use Rattle.named_model.specs.Phrase as tree;
ghost use Rattle.named_model.specs.Phrase.{links_of, steps_of, domains_of, no_steps};
ghost use Rattle.named_model.specs.View.{phrase_view, phrases_view, link_view, step_view, domain_view};
ghost use Rattle.model_types.specs.Sorts as sorts;
ghost use Rattle.model_types.specs.Typing.{Local, settled, formulas_settled, arguments_settled, links_settled, steps_settled, domains_settled, values_settled, formula_from, type_in, tops_behind, ends_of};
ghost use Rattle.model_types.specs.Parts.Kinds.{kind_view};
ghost use Rattle.overload_resolution.specs.Names.Asking.{asks_in_links, asks_in_steps};
ghost use Rattle.overload_resolution.specs.Names.Shared.{shared_in, shared_among, shared_in_domains};
ghost use Rattle.overload_resolution.specs.Scopes.Declaring.{declared_by, AreTables};
ghost use Rattle.overload_resolution.specs.Settling.Told.{Gives};
ghost use Rattle.overload_resolution.specs.Scopes.Given.{settled_view};
ghost use Rattle.overload_resolution.specs.Parts.Given.{GivesBehind, relation_view, IsGiven, IsGivenFirst, IsGivenBefore};
ghost use Rattle.overload_resolution.specs.Parts.Views.{phrases_seen, arguments_view, linked_view, links_seen, stepped_view, steps_seen, domains_seen};
ghost use Rattle.overload_resolution.specs.Scopes.Zipped.{IsInside};
ghost use Rattle.overload_resolution.specs.Settling.Single.{link_settled, step_settled, relation_settled, argument_asked, argument_first, tops_of};

use crate::settled_parts::building::{
    Arguments, block_of, bracketed, bracketed_of, brackets_step, chain_of, combined, compared_of,
    connected, domain_of, else_of, formula_of, implies_of, join_step, joined, let_of, path_of,
    prefixed_of, put_argument, put_link, put_step, quantified_of, relation_of,
};
use crate::shared_fields::Tops;
use crate::shared_fields::tops::{ends_of, tops_behind};
use crate::shared_names::asking::{asks_in_links, asks_in_steps, is_shared};
use crate::shared_names::call_kind;
use crate::shared_names::walk::{is_among, is_in, is_in_domains};
use crate::typed_scopes::names::referent_settled;
use crate::typed_scopes::types::{enter_all, leave_until, type_inside, type_where};
use crate::typed_scopes::{Scope, Setting};
use alloy_lex::Place;
use alloy_syntax::tree::{Comparing, Constant, Operator, Prefix, Quantifier};
use model_types::TypeFault;
use model_types::bounding_types::BoundingType;
use model_types::part_sorts::Kind;
use model_types::part_sorts::arities::{constant_arity, is_connective};
use model_types::part_sorts::places::first_place;
use named_model::phrase::{Domain, Link, Phrase, Step};
use std::alloc::Global;

// What is returned where local names may have been entered; at a fault these are left, until so many are left.
fn left_at_a_fault<T: Drop>(
    scope: &mut Scope,
    depth: usize,
    made: Result<T, TypeFault>,
) -> Result<T, TypeFault>
    ensures made { result ≡ made }
    ensures ok { OnOk result (scope.new.locals ≡ scope.old.locals) }
    ensures err { OnErr result ((outer : List Local) → IsInside scope.old.locals outer → length outer ≡ depth → scope.new.locals ≡ outer) }
{
    match made {
        Ok(made) => Ok(made),
        Err(fault) => {
            leave_until(scope, depth);
            Err(fault)
        }
    }
}

/// A part, where a shared name in its place belongs to one of these signatures, and what it is; or the first fault.
#[cycle(parts)]
pub fn part(
    alloc: Global,
    setting: &Setting,
    scope: &mut Scope,
    tops: &Tops,
    phrase: &Phrase,
) -> Result<(Phrase, Kind), TypeFault>
    requires { AreTables setting.now }
    ensures value { Gives settled_view result (settled (declared_by setting.now) scope.old.locals tops.now (phrase_view phrase.now)) }
    ensures locals { scope.new.locals ≡ scope.old.locals }
{
    match phrase {
        Phrase::Refers(place, name) => referent_settled(setting, scope, tops, *place, *name),
        Phrase::Called(place, number, given) => call(alloc, setting, scope, given, *place, *number),
        Phrase::Numbered(number) => Ok((Phrase::Numbered(*number), Kind::Number)),
        Phrase::Constant(constant, place) => Ok(constant_settled(*constant, *place)),
        Phrase::Bracketed(place, inner) => {
            bracketed_of(alloc, *place, part(alloc, setting, scope, tops, inner))
        }
        Phrase::Block(place, phrases) => block_of(*place, formulas(alloc, setting, scope, phrases)),
        Phrase::Prefixed(prefix, place, inner) => {
            prefixed(alloc, setting, scope, *prefix, *place, inner)
        }
        Phrase::Chain(first, links) => chain(alloc, setting, scope, first, links),
        Phrase::Path(head, steps) => path(alloc, setting, scope, head, steps),
        Phrase::Compared(left, how, right) => compared(alloc, setting, scope, left, *how, right),
        Phrase::Implies(left, place, right) => implied(alloc, setting, scope, left, *place, right),
        Phrase::ImpliesElse(left, place, right, other) => {
            or_else(alloc, setting, scope, left, *place, right, other)
        }
        Phrase::Quantified(quantifier, place, variables, inner) => {
            quantified(alloc, setting, scope, *quantifier, *place, variables, inner)
        }
        Phrase::Let(place, values, inner) => in_let(alloc, setting, scope, *place, values, inner),
    }
}

fn constant_settled(constant: Constant, place: Place) -> (Phrase, Kind)
    ensures { settled_view result ≡ record { tree = tree.constant constant place; kind = sorts.relation (sorts.constant_arity constant) } }
{
    let kind = Kind::Relation(constant_arity(constant));
    (Phrase::Constant(constant, place), kind)
}

// A call with its arguments.
#[cycle(parts)]
fn call(
    alloc: Global,
    setting: &Setting,
    scope: &mut Scope,
    phrases: &[Phrase],
    place: Place,
    number: usize,
) -> Result<(Phrase, Kind), TypeFault>
    requires { AreTables setting.now }
    ensures value { Gives settled_view result (settled (declared_by setting.now) scope.old.locals [] (tree.called place number (phrases_view phrases.now))) }
    ensures locals { scope.new.locals ≡ scope.old.locals }
{
    let arguments = all_arguments(alloc, setting, scope, phrases, None)?;
    let kind = call_kind(place, setting.headers.get(number), &arguments.arities)?;
    Ok((Phrase::Called(place, number, arguments.phrases), kind))
}

// A part behind an operator.
#[cycle(parts)]
fn prefixed(
    alloc: Global,
    setting: &Setting,
    scope: &mut Scope,
    prefix: Prefix,
    place: Place,
    phrase: &Phrase,
) -> Result<(Phrase, Kind), TypeFault>
    requires { AreTables setting.now }
    ensures value { Gives settled_view result (settled (declared_by setting.now) scope.old.locals [] (tree.prefixed prefix place (phrase_view phrase.now))) }
    ensures locals { scope.new.locals ≡ scope.old.locals }
{
    let settled = plain(alloc, setting, scope, phrase);
    prefixed_of(alloc, prefix, place, phrase, settled)
}

// A chain of operands.
#[cycle(parts)]
fn chain(
    alloc: Global,
    setting: &Setting,
    scope: &mut Scope,
    first: &Phrase,
    links: &[Link],
) -> Result<(Phrase, Kind), TypeFault>
    requires { AreTables setting.now }
    ensures value { Gives settled_view result (settled (declared_by setting.now) scope.old.locals [] (tree.chain (phrase_view first.now) (links_of (map link_view links.now)))) }
    ensures locals { scope.new.locals ≡ scope.old.locals }
{
    let left = first_place(first);
    let (first, kind) = plain(alloc, setting, scope, first)?;
    let others = behind(alloc, setting, scope, left, kind, links, &first);
    chain_of(alloc, first, others)
}

// A path, the head of which may ask for its first argument.
#[cycle(parts)]
fn path(
    alloc: Global,
    setting: &Setting,
    scope: &mut Scope,
    head: &Phrase,
    steps: &[Step],
) -> Result<(Phrase, Kind), TypeFault>
    requires { AreTables setting.now }
    ensures value { Gives settled_view result (settled (declared_by setting.now) scope.old.locals [] (tree.path (phrase_view head.now) (steps_of (map step_view steps.now)))) }
    ensures locals { scope.new.locals ≡ scope.old.locals }
{
    let left = first_place(head);
    let given = argument_asked(alloc, setting, scope, steps, head)?;
    let (head, kind) = head_settled(alloc, setting, scope, head, &given)?;
    let others = after(alloc, setting, scope, left, kind, steps, &head, given);
    path_of(alloc, head, others)
}

// A comparison.
#[cycle(parts)]
fn compared(
    alloc: Global,
    setting: &Setting,
    scope: &mut Scope,
    left: &Phrase,
    comparing: Comparing,
    right: &Phrase,
) -> Result<(Phrase, Kind), TypeFault>
    requires { AreTables setting.now }
    ensures value { Gives settled_view result (settled (declared_by setting.now) scope.old.locals [] (tree.compared (phrase_view left.now) comparing (phrase_view right.now))) }
    ensures locals { scope.new.locals ≡ scope.old.locals }
{
    let first = plain(alloc, setting, scope, left)?;
    let second = plain(alloc, setting, scope, right);
    compared_of(alloc, first_place(left), first, comparing, right, second)
}

// An implication.
#[cycle(parts)]
fn implied(
    alloc: Global,
    setting: &Setting,
    scope: &mut Scope,
    left: &Phrase,
    place: Place,
    right: &Phrase,
) -> Result<(Phrase, Kind), TypeFault>
    requires { AreTables setting.now }
    ensures value { Gives settled_view result (settled (declared_by setting.now) scope.old.locals [] (tree.implies (phrase_view left.now) place (phrase_view right.now))) }
    ensures locals { scope.new.locals ≡ scope.old.locals }
{
    let premise = formula(alloc, setting, scope, left)?;
    let right = formula(alloc, setting, scope, right);
    implies_of(alloc, premise, place, right)
}

// The same with a part behind `else`.
#[cycle(parts)]
fn or_else(
    alloc: Global,
    setting: &Setting,
    scope: &mut Scope,
    left: &Phrase,
    place: Place,
    right: &Phrase,
    other: &Phrase,
) -> Result<(Phrase, Kind), TypeFault>
    requires { AreTables setting.now }
    ensures value { Gives settled_view result (settled (declared_by setting.now) scope.old.locals [] (tree.implies_else (phrase_view left.now) place (phrase_view right.now) (phrase_view other.now))) }
    ensures locals { scope.new.locals ≡ scope.old.locals }
{
    let premise = formula(alloc, setting, scope, left)?;
    let second = formula(alloc, setting, scope, right);
    let other = formula(alloc, setting, scope, other);
    else_of(alloc, premise, place, second, other)
}

// Whether a name of several fields stands in the domains of a quantifier or in what stands inside it.
fn asks_quantified(variables: &[Domain], inner: &Phrase) -> bool
    ensures { result ≡ shared_in_domains (domains_of (map domain_view variables.now)) || shared_in (phrase_view inner.now) }
{
    is_in_domains(variables) || is_in(inner)
}

// The same of the values of a `let`.
fn asks_let(phrases: &[Phrase], inner: &Phrase) -> bool
    ensures { result ≡ shared_among (phrases_view phrases.now) || shared_in (phrase_view inner.now) }
{
    is_among(phrases) || is_in(inner)
}

// A quantifier.
#[cycle(parts)]
fn quantified(
    alloc: Global,
    setting: &Setting,
    scope: &mut Scope,
    quantifier: Quantifier,
    place: Place,
    variables: &[Domain],
    inner: &Phrase,
) -> Result<(Phrase, Kind), TypeFault>
    requires { AreTables setting.now }
    ensures value { Gives settled_view result (settled (declared_by setting.now) scope.old.locals [] (tree.quantified quantifier place (domains_of (map domain_view variables.now)) (phrase_view inner.now))) }
    ensures locals { scope.new.locals ≡ scope.old.locals }
{
    let depth = scope.locals.depth();
    let asked = asks_quantified(variables, inner);
    let others = variables_entered(alloc, setting, scope, asked, variables)?;
    let inner = formula_inside(alloc, setting, scope, inner, depth);
    quantified_of(alloc, quantifier, place, others, inner)
}

// A `let`.
#[cycle(parts)]
fn in_let(
    alloc: Global,
    setting: &Setting,
    scope: &mut Scope,
    place: Place,
    phrases: &[Phrase],
    inner: &Phrase,
) -> Result<(Phrase, Kind), TypeFault>
    requires { AreTables setting.now }
    ensures value { Gives settled_view result (settled (declared_by setting.now) scope.old.locals [] (tree.bound_by_let place (phrases_view phrases.now) (phrase_view inner.now))) }
    ensures locals { scope.new.locals ≡ scope.old.locals }
{
    let depth = scope.locals.depth();
    let asked = asks_let(phrases, inner);
    let others = values_entered(alloc, setting, scope, asked, phrases)?;
    let inner = formula_inside(alloc, setting, scope, inner, depth);
    let_of(alloc, place, others, inner)
}

// The variables of a quantifier, which are entered. At a fault the local names are as before.
#[cycle(parts)]
fn variables_entered(
    alloc: Global,
    setting: &Setting,
    scope: &mut Scope,
    asked: bool,
    variables: &[Domain],
) -> Result<Vec<Domain>, TypeFault>
    requires tables { AreTables setting.now }
    requires asked { shared_in_domains (domains_of (map domain_view variables.now)) ≡ true → asked ≡ true }
    ensures value { GivesBehind asked domains_seen result scope.new.locals (domains_settled true (declared_by setting.now) scope.old.locals (domains_of (map domain_view variables.now))) }
    ensures inside { IsInside scope.new.locals scope.old.locals }
    ensures err { OnErr result (scope.new.locals ≡ scope.old.locals) }
{
    let depth = scope.locals.depth();
    let made = domains(alloc, setting, scope, true, asked, variables);
    left_at_a_fault(scope, depth, made)
}

// A part that has to be a formula, inside local names. These are left, until so many are left.
#[cycle(parts)]
fn formula_inside(
    alloc: Global,
    setting: &Setting,
    scope: &mut Scope,
    phrase: &Phrase,
    depth: usize,
) -> Result<Phrase, TypeFault>
    requires { AreTables setting.now }
    ensures value { Gives phrase_view result (formula_from (phrase_view phrase.now) (settled (declared_by setting.now) scope.old.locals [] (phrase_view phrase.now))) }
    ensures locals { (outer : List Local) → IsInside scope.old.locals outer → length outer ≡ depth → scope.new.locals ≡ outer }
{
    let settled = formula(alloc, setting, scope, phrase);
    leave_until(scope, depth);
    settled
}

// The values of the names of a `let`, which are entered. At a fault the local names are as before.
#[cycle(parts)]
fn values_entered(
    alloc: Global,
    setting: &Setting,
    scope: &mut Scope,
    asked: bool,
    phrases: &[Phrase],
) -> Result<Vec<Phrase>, TypeFault>
    requires tables { AreTables setting.now }
    requires asked { shared_among (phrases_view phrases.now) ≡ true → asked ≡ true }
    ensures value { GivesBehind asked phrases_seen result scope.new.locals (values_settled (declared_by setting.now) scope.old.locals (phrases_view phrases.now)) }
    ensures inside { IsInside scope.new.locals scope.old.locals }
    ensures err { OnErr result (scope.new.locals ≡ scope.old.locals) }
{
    let depth = scope.locals.depth();
    let made = values(alloc, setting, scope, asked, phrases);
    left_at_a_fault(scope, depth, made)
}

// A part in whose place no shared name can stand.
#[cycle(parts)]
fn plain(
    alloc: Global,
    setting: &Setting,
    scope: &mut Scope,
    phrase: &Phrase,
) -> Result<(Phrase, Kind), TypeFault>
    requires { AreTables setting.now }
    ensures value { Gives settled_view result (settled (declared_by setting.now) scope.old.locals [] (phrase_view phrase.now)) }
    ensures locals { scope.new.locals ≡ scope.old.locals }
{
    let none = Tops::new(alloc);
    part(alloc, setting, scope, &none, phrase)
}

// A part that has to be a formula.
#[cycle(parts)]
fn formula(
    alloc: Global,
    setting: &Setting,
    scope: &mut Scope,
    phrase: &Phrase,
) -> Result<Phrase, TypeFault>
    requires { AreTables setting.now }
    ensures value { Gives phrase_view result (formula_from (phrase_view phrase.now) (settled (declared_by setting.now) scope.old.locals [] (phrase_view phrase.now))) }
    ensures locals { scope.new.locals ≡ scope.old.locals }
{
    let settled = plain(alloc, setting, scope, phrase);
    formula_of(phrase, settled)
}

/// Parts that have to be formulas.
#[cycle(parts)]
pub fn formulas(
    alloc: Global,
    setting: &Setting,
    scope: &mut Scope,
    phrases: &[Phrase],
) -> Result<Vec<Phrase>, TypeFault>
    requires { AreTables setting.now }
    ensures value { Gives phrases_seen result (formulas_settled (declared_by setting.now) scope.old.locals (phrases_view phrases.now)) }
    ensures locals { scope.new.locals ≡ scope.old.locals }
{
    let mut all = Vec::new(alloc);
    for phrase in phrases {
        let another = formula(alloc, setting, scope, phrase)?;
        all.push(another)?;
    }
    Ok(all)
}

// A part that has to be a relation, and its arity; unless the part was settled before.
#[cycle(parts)]
fn relation(
    alloc: Global,
    setting: &Setting,
    scope: &mut Scope,
    phrase: &Phrase,
    given: Option<(Phrase, Kind)>,
) -> Result<(Phrase, usize), TypeFault>
    requires tables { AreTables setting.now }
    requires given { IsGiven (declared_by setting.now) scope.old.locals given (phrase_view phrase.now) }
    ensures value { Gives relation_view result (relation_settled (declared_by setting.now) scope.old.locals (phrase_view phrase.now)) }
    ensures locals { scope.new.locals ≡ scope.old.locals }
{
    match given {
        Some(settled) => relation_of(phrase, Ok(settled)),
        None => {
            let settled = plain(alloc, setting, scope, phrase);
            relation_of(phrase, settled)
        }
    }
}

// Arguments, the first of which may have been settled before.
#[cycle(parts)]
fn all_arguments(
    alloc: Global,
    setting: &Setting,
    scope: &mut Scope,
    phrases: &[Phrase],
    given: Option<(Phrase, Kind)>,
) -> Result<Arguments, TypeFault>
    requires tables { AreTables setting.now }
    requires given { IsGivenFirst (declared_by setting.now) scope.old.locals given (phrases_view phrases.now) }
    ensures value { Gives arguments_view result (arguments_settled (declared_by setting.now) scope.old.locals (phrases_view phrases.now)) }
    ensures locals { scope.new.locals ≡ scope.old.locals }
{
    let mut given = given;
    let others = Vec::new(alloc);
    let arities = Vec::new(alloc);
    let mut all = Arguments {
        phrases: others,
        arities,
    };
    for phrase in phrases {
        let (argument, arity) = relation(alloc, setting, scope, phrase, given.take())?;
        put_argument(&mut all, argument, arity, first_place(phrase))?;
    }
    Ok(all)
}

// The operands of a chain behind the first one.
#[cycle(parts)]
fn behind(
    alloc: Global,
    setting: &Setting,
    scope: &mut Scope,
    left: Place,
    kind: Kind,
    links: &[Link],
    head: &Phrase,
) -> Result<(Vec<Link>, Kind), TypeFault>
    requires { AreTables setting.now }
    ensures value { Gives links_seen result (links_settled (declared_by setting.now) scope.old.locals left (kind_view kind) (type_in (declared_by setting.now) scope.old.locals (phrase_view head.now)) (links_of (map link_view links.now))) }
    ensures locals { scope.new.locals ≡ scope.old.locals }
{
    let asked = asks_in_links(links);
    let of = type_where(alloc, setting, scope, asked, head)?;
    operands(alloc, setting, scope, left, kind, asked, of, links)
}

#[cycle(parts)]
fn operands(
    alloc: Global,
    setting: &Setting,
    scope: &mut Scope,
    left: Place,
    kind: Kind,
    asked: bool,
    of: BoundingType,
    links: &[Link],
) -> Result<(Vec<Link>, Kind), TypeFault>
    requires tables { AreTables setting.now }
    requires asked { asks_in_links (links_of (map link_view links.now)) ≡ asked }
    ensures value { Gives links_seen result (links_settled (declared_by setting.now) scope.old.locals left (kind_view kind) of (links_of (map link_view links.now))) }
    ensures locals { scope.new.locals ≡ scope.old.locals }
{
    let mut all = Vec::new(alloc);
    let mut kind = kind;
    let mut of = of;
    for link in links {
        let (another, next) = link_settled(alloc, setting, scope, left, kind, &of, link)?;
        of = put_link(alloc, setting, scope, asked, of, another, &mut all)?;
        kind = next;
    }
    Ok((all, kind))
}

// An operator with the operand behind it, and what the chain so far is.
#[cycle(parts)]
fn link_settled(
    alloc: Global,
    setting: &Setting,
    scope: &mut Scope,
    left: Place,
    kind: Kind,
    of: &BoundingType,
    link: &Link,
) -> Result<(Link, Kind), TypeFault>
    requires { AreTables setting.now }
    ensures value { Gives linked_view result (link_settled (declared_by setting.now) scope.old.locals left (kind_view kind) of.now (link_view link.now)) }
    ensures locals { scope.new.locals ≡ scope.old.locals }
{
    if is_connective(link.operator) {
        let operand = formula(alloc, setting, scope, &link.operand);
        connected(left, kind, link, operand)
    } else {
        let operand = operand(alloc, setting, scope, link.operator, of, &link.operand);
        combined(left, kind, link, operand)
    }
}

// A part behind an operator, where what stands before it has this type.
#[cycle(parts)]
fn operand(
    alloc: Global,
    setting: &Setting,
    scope: &mut Scope,
    operator: Operator,
    of: &BoundingType,
    phrase: &Phrase,
) -> Result<(Phrase, Kind), TypeFault>
    requires { AreTables setting.now }
    ensures value { Gives settled_view result (settled (declared_by setting.now) scope.old.locals (tops_behind operator of.now) (phrase_view phrase.now)) }
    ensures locals { scope.new.locals ≡ scope.old.locals }
{
    let tops = tops_behind(alloc, operator, of)?;
    part(alloc, setting, scope, &tops, phrase)
}

// The first argument in brackets that come first, where the head asks for it.
#[cycle(parts)]
fn argument_asked(
    alloc: Global,
    setting: &Setting,
    scope: &mut Scope,
    steps: &[Step],
    head: &Phrase,
) -> Result<Option<(Phrase, Kind)>, TypeFault>
    requires { AreTables setting.now }
    ensures value { Gives (option_map settled_view) result (argument_asked (declared_by setting.now) scope.old.locals (phrase_view head.now) (steps_of (map step_view steps.now))) }
    ensures locals { scope.new.locals ≡ scope.old.locals }
{
    if !is_shared(head) {
        return Ok(None);
    }
    match steps.first() {
        Some(Step::Brackets(_, arguments)) => argument_first(alloc, setting, scope, arguments),
        Some(Step::Join(_, _)) => Ok(None),
        None => Ok(None),
    }
}

#[cycle(parts)]
fn argument_first(
    alloc: Global,
    setting: &Setting,
    scope: &mut Scope,
    arguments: &[Phrase],
) -> Result<Option<(Phrase, Kind)>, TypeFault>
    requires { AreTables setting.now }
    ensures value { Gives (option_map settled_view) result (argument_first (declared_by setting.now) scope.old.locals (phrases_view arguments.now)) }
    ensures locals { scope.new.locals ≡ scope.old.locals }
{
    match arguments.first() {
        Some(first) => Ok(Some(plain(alloc, setting, scope, first)?)),
        None => Ok(None),
    }
}

// The head of a path, where this is the first argument that it asks for.
#[cycle(parts)]
fn head_settled(
    alloc: Global,
    setting: &Setting,
    scope: &mut Scope,
    head: &Phrase,
    given: &Option<(Phrase, Kind)>,
) -> Result<(Phrase, Kind), TypeFault>
    requires { AreTables setting.now }
    ensures value { Gives settled_view result (settled (declared_by setting.now) scope.old.locals (tops_of (declared_by setting.now) scope.old.locals (option_map settled_view given.now)) (phrase_view head.now)) }
    ensures locals { scope.new.locals ≡ scope.old.locals }
{
    match given {
        Some(argument) => {
            let of = type_inside(alloc, setting, scope, &argument.0)?;
            let tops = ends_of(alloc, &of)?;
            part(alloc, setting, scope, &tops, head)
        }
        None => plain(alloc, setting, scope, head),
    }
}

// What stands behind the head of a path.
#[cycle(parts)]
fn after(
    alloc: Global,
    setting: &Setting,
    scope: &mut Scope,
    left: Place,
    kind: Kind,
    steps: &[Step],
    head: &Phrase,
    given: Option<(Phrase, Kind)>,
) -> Result<(Vec<Step>, Kind), TypeFault>
    requires tables { AreTables setting.now }
    requires given { IsGivenBefore (declared_by setting.now) scope.old.locals given (steps_of (map step_view steps.now)) }
    ensures value { Gives steps_seen result (steps_settled (declared_by setting.now) scope.old.locals left (kind_view kind) (type_in (declared_by setting.now) scope.old.locals (phrase_view head.now)) (steps_of (map step_view steps.now))) }
    ensures locals { scope.new.locals ≡ scope.old.locals }
{
    let asked = asks_in_steps(steps);
    let of = type_where(alloc, setting, scope, asked, head)?;
    all_steps(alloc, setting, scope, left, kind, asked, of, steps, given)
}

#[cycle(parts)]
fn all_steps(
    alloc: Global,
    setting: &Setting,
    scope: &mut Scope,
    left: Place,
    kind: Kind,
    asked: bool,
    of: BoundingType,
    steps: &[Step],
    given: Option<(Phrase, Kind)>,
) -> Result<(Vec<Step>, Kind), TypeFault>
    requires tables { AreTables setting.now }
    requires asked { asks_in_steps (steps_of (map step_view steps.now)) ≡ asked }
    requires given { IsGivenBefore (declared_by setting.now) scope.old.locals given (steps_of (map step_view steps.now)) }
    ensures value { Gives steps_seen result (steps_settled (declared_by setting.now) scope.old.locals left (kind_view kind) of (steps_of (map step_view steps.now))) }
    ensures locals { scope.new.locals ≡ scope.old.locals }
{
    let mut all = Vec::new(alloc);
    let mut kind = kind;
    let mut of = of;
    let mut given = given;
    for step in steps {
        let (another, next) = step_settled(
            alloc,
            setting,
            scope,
            left,
            kind,
            &of,
            step,
            given.take(),
        )?;
        of = put_step(alloc, setting, scope, asked, of, another, &mut all)?;
        kind = next;
    }
    Ok((all, kind))
}

// A step, and what the path so far is.
#[cycle(parts)]
fn step_settled(
    alloc: Global,
    setting: &Setting,
    scope: &mut Scope,
    left: Place,
    kind: Kind,
    of: &BoundingType,
    step: &Step,
    given: Option<(Phrase, Kind)>,
) -> Result<(Step, Kind), TypeFault>
    requires tables { AreTables setting.now }
    requires given { IsGivenBefore (declared_by setting.now) scope.old.locals given (tree.step_first (step_view step.now) no_steps) }
    ensures value { Gives stepped_view result (step_settled (declared_by setting.now) scope.old.locals left (kind_view kind) of.now (step_view step.now)) }
    ensures locals { scope.new.locals ≡ scope.old.locals }
{
    match step {
        Step::Join(place, operand) => {
            let second = member(alloc, setting, scope, of, operand);
            join_step(*place, joined(left, kind, *place, operand, second))
        }
        Step::Brackets(place, phrases) => {
            let others = all_arguments(alloc, setting, scope, phrases, given);
            brackets_step(*place, bracketed(left, kind, *place, others))
        }
    }
}

// A part behind a join, where what stands before it has this type.
#[cycle(parts)]
fn member(
    alloc: Global,
    setting: &Setting,
    scope: &mut Scope,
    of: &BoundingType,
    phrase: &Phrase,
) -> Result<(Phrase, Kind), TypeFault>
    requires { AreTables setting.now }
    ensures value { Gives settled_view result (settled (declared_by setting.now) scope.old.locals (ends_of of.now) (phrase_view phrase.now)) }
    ensures locals { scope.new.locals ≡ scope.old.locals }
{
    let tops = ends_of(alloc, of)?;
    part(alloc, setting, scope, &tops, phrase)
}

/// Domains, which have to be unary where they are a quantifier's; their variables or parameters are entered, with types where
/// these are asked for.
#[cycle(parts)]
pub fn domains(
    alloc: Global,
    setting: &Setting,
    scope: &mut Scope,
    single: bool,
    asked: bool,
    variables: &[Domain],
) -> Result<Vec<Domain>, TypeFault>
    requires tables { AreTables setting.now }
    requires asked { shared_in_domains (domains_of (map domain_view variables.now)) ≡ true → asked ≡ true }
    ensures value { GivesBehind asked domains_seen result scope.new.locals (domains_settled single (declared_by setting.now) scope.old.locals (domains_of (map domain_view variables.now))) }
    ensures inside { IsInside scope.new.locals scope.old.locals }
{
    let mut all = Vec::new(alloc);
    for variable in variables {
        let settled = relation(alloc, setting, scope, &variable.domain, None);
        let (domain, arity) = domain_of(single, &variable.domain, settled)?;
        enter_all(alloc, setting, scope, asked, variable.count, arity, &domain)?;
        all.push(Domain {
            disjoint: variable.disjoint,
            count: variable.count,
            mark: variable.mark,
            domain,
        })?;
    }
    Ok(all)
}

// The values of the names of a `let`, which are entered, with types where these are asked for.
#[cycle(parts)]
fn values(
    alloc: Global,
    setting: &Setting,
    scope: &mut Scope,
    asked: bool,
    phrases: &[Phrase],
) -> Result<Vec<Phrase>, TypeFault>
    requires tables { AreTables setting.now }
    requires asked { shared_among (phrases_view phrases.now) ≡ true → asked ≡ true }
    ensures value { GivesBehind asked phrases_seen result scope.new.locals (values_settled (declared_by setting.now) scope.old.locals (phrases_view phrases.now)) }
    ensures inside { IsInside scope.new.locals scope.old.locals }
{
    let mut all = Vec::new(alloc);
    for phrase in phrases {
        let (value, arity) = relation(alloc, setting, scope, phrase, None)?;
        enter_all(alloc, setting, scope, asked, 1, arity, &value)?;
        all.push(value)?;
    }
    Ok(all)
}
