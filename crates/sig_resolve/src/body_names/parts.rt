// Expressions, formulas and numbers.
ghost use Rattle.std.specs.Prelude.{◌≡◌, [], ◌∷◌, map, drop, OnOk};
ghost use Rattle.alloy_syntax.specs.Tree.{trees_of, links_of, steps_of, declarations_of, bindings_of};
ghost use Rattle.alloy_syntax.specs.View.{view, views, link_view, step_view, declaration_view, binding_view};
ghost use Rattle.named_model.specs.Names as spec;
ghost use Rattle.named_model.specs.Phrase as phrase;
ghost use Rattle.named_model.specs.View as seen;
ghost use Rattle.name_tables.specs.InForce.{with_locals};
ghost use Rattle.name_tables.specs.Told.{Answers};
ghost use Rattle.sig_resolve.specs.Bodies.Each.{faults_of_step, resolved_before, domain_resolved, parts_in};

use crate::body_names::locals::{enter_all, leave_until};
use crate::body_names::signs::{path_of, single, takes, tied};
use alloy_lex::Place;
use alloy_syntax::tree::{Binding, Declaration, Link, Node, Step};
use name_tables::Names;
use named_model::NameFault;
use named_model::phrase::{Domain, Link as PhraseLink, Phrase, Step as PhraseStep};
use std::alloc::Global;

/// An expression or a formula, or the first fault of its names.
pub fn expression(alloc: Global, names: &mut Names, node: &Node) -> Result<Phrase, NameFault>
    ensures value { Answers result (spec.faults_of names.old.globals names.old.locals 0 (view node.now)) (λ x. seen.phrase_view x ≡ spec.resolved names.old.globals names.old.locals (view node.now)) }
    ensures names { OnOk result (names.new ≡ names.old) }
{
    part(alloc, names, 0, node)
}

// A part, directly behind which so many parts stand in brackets.
#[cycle(parts)]
fn part(alloc: Global, names: &mut Names, behind: usize, node: &Node) -> Result<Phrase, NameFault>
    ensures value { Answers result (spec.faults_of names.old.globals names.old.locals behind (view node.now)) (λ x. seen.phrase_view x ≡ spec.resolved names.old.globals names.old.locals (view node.now)) }
    ensures names { OnOk result (names.new ≡ names.old) }
{
    match node {
        Node::Named(name) => Ok(tied(alloc, names, behind, name)?),
        Node::Numbered(number) => Ok(Phrase::Numbered(*number)),
        Node::Constant(constant, place) => Ok(Phrase::Constant(*constant, *place)),
        Node::Bracketed(place, inner) => {
            Ok(Phrase::Bracketed(*place, boxed(alloc, names, inner)?))
        }
        Node::Block(place, nodes) => Ok(Phrase::Block(*place, formulas(alloc, names, nodes)?)),
        Node::Prefixed(prefix, place, inner) => {
            Ok(Phrase::Prefixed(*prefix, *place, boxed(alloc, names, inner)?))
        }
        Node::Chain(first, others) => {
            let first = boxed(alloc, names, first)?;
            Ok(Phrase::Chain(first, links(alloc, names, others)?))
        }
        Node::Path(head, steps) => {
            let head = part(alloc, names, bracketed_in(steps), head)?;
            Ok(path(alloc, names, steps, head)?)
        }
        Node::Compared(left, comparing, right) => {
            let left = boxed(alloc, names, left)?;
            Ok(Phrase::Compared(left, *comparing, boxed(alloc, names, right)?))
        }
        Node::Implies(left, place, right) => {
            let left = boxed(alloc, names, left)?;
            Ok(Phrase::Implies(left, *place, boxed(alloc, names, right)?))
        }
        Node::ImpliesElse(left, place, right, other) => {
            let left = boxed(alloc, names, left)?;
            let right = boxed(alloc, names, right)?;
            Ok(Phrase::ImpliesElse(left, *place, right, boxed(alloc, names, other)?))
        }
        Node::Quantified(quantifier, place, declarations, inner) => {
            let depth = names.depth();
            let domains = domains(alloc, names, declarations)?;
            let inner = boxed(alloc, names, inner)?;
            leave_until(names, depth);
            Ok(Phrase::Quantified(*quantifier, *place, domains, inner))
        }
        Node::Let(place, bindings, inner) => {
            let depth = names.depth();
            let values = values(alloc, names, bindings)?;
            let inner = boxed(alloc, names, inner)?;
            leave_until(names, depth);
            Ok(Phrase::Let(*place, values, inner))
        }
    }
}

// A part in its box, behind which no brackets stand.
#[cycle(parts)]
fn boxed(alloc: Global, names: &mut Names, node: &Node) -> Result<Box<Phrase>, NameFault>
    ensures value { Answers result (spec.faults_of names.old.globals names.old.locals 0 (view node.now)) (λ x. seen.phrase_view x.value ≡ spec.resolved names.old.globals names.old.locals (view node.now)) }
    ensures names { OnOk result (names.new ≡ names.old) }
{
    let phrase = part(alloc, names, 0, node)?;
    Ok(Box::new(alloc, phrase)?)
}

/// Formulas, or other parts that see the same names, or the first fault of their names.
#[cycle(parts)]
pub fn formulas(alloc: Global, names: &mut Names, nodes: &[Node]) -> Result<Vec<Phrase>, NameFault>
    ensures value { Answers result (spec.all_faults names.old.globals names.old.locals (trees_of (views nodes.now))) (λ xs. seen.phrases_view xs.items ≡ spec.all_resolved names.old.globals names.old.locals (trees_of (views nodes.now))) }
    ensures names { OnOk result (names.new ≡ names.old) }
{
    let mut all = Vec::new(alloc);
    for node in nodes {
        let another = part(alloc, names, 0, node)?;
        all.push(another)?;
    }
    Ok(all)
}

// The operands of a chain behind the first one.
#[cycle(parts)]
fn links(alloc: Global, names: &mut Names, links: &[Link]) -> Result<Vec<PhraseLink>, NameFault>
    ensures value { Answers result (spec.link_faults names.old.globals names.old.locals (links_of (map link_view links.now))) (λ xs. phrase.links_of (map seen.link_view xs.items) ≡ spec.links_resolved names.old.globals names.old.locals (links_of (map link_view links.now))) }
    ensures names { OnOk result (names.new ≡ names.old) }
{
    let mut all = Vec::new(alloc);
    for link in links {
        let another = link_of(alloc, names, link)?;
        all.push(another)?;
    }
    Ok(all)
}

#[cycle(parts)]
fn link_of(alloc: Global, names: &mut Names, link: &Link) -> Result<PhraseLink, NameFault>
    ensures value { Answers result (spec.faults_of names.old.globals names.old.locals 0 (link_view link.now).operand) (λ x. seen.link_view x ≡ record { operator = (link_view link.now).operator; place = (link_view link.now).place; operand = spec.resolved names.old.globals names.old.locals (link_view link.now).operand }) }
    ensures names { OnOk result (names.new ≡ names.old) }
{
    let operand = part(alloc, names, 0, &link.operand)?;
    Ok(PhraseLink {
        operator: link.operator,
        place: link.place,
        operand,
    })
}

// How many parts stand in the brackets that come first; 0 where no brackets do.
fn bracketed_in(steps: &[Step]) -> usize
    ensures { result ≡ spec.bracketed_in (steps_of (map step_view steps.now)) }
{
    match steps.first() {
        Some(step) => parts_in(step),
        None => 0,
    }
}

fn parts_in(step: &Step) -> usize
    ensures { result ≡ parts_in (step_view step.now) }
{
    match step {
        Step::Brackets(_, parts) => parts.len(),
        Step::Join(_, _) => 0,
    }
}

// An expression with what stands behind it.
#[cycle(parts)]
fn path(alloc: Global, names: &mut Names, steps: &[Step], head: Phrase) -> Result<Phrase, NameFault>
    ensures value { Answers result (spec.step_faults names.old.globals names.old.locals (steps_of (map step_view steps.now))) (λ x. seen.phrase_view x ≡ spec.with_steps names.old.globals (seen.phrase_view head) (spec.steps_resolved names.old.globals names.old.locals (steps_of (map step_view steps.now)))) }
    ensures names { OnOk result (names.new ≡ names.old) }
{
    match &head {
        Phrase::Called(place, number, _) => {
            let place = *place;
            let number = *number;
            call(alloc, names, steps, place, number, head)
        }
        _ => {
            let head = Box::new(alloc, head)?;
            Ok(Phrase::Path(head, steps_from(alloc, names, steps, 0)?))
        }
    }
}

// A call, which stands at this place and is of the predicate or the function with this number: it takes the brackets directly behind it, if they are its own.
#[cycle(parts)]
fn call(
    alloc: Global,
    names: &mut Names,
    steps: &[Step],
    place: Place,
    number: usize,
    called: Phrase,
) -> Result<Phrase, NameFault>
    ensures value { (given : phrase.PhraseTrees) → seen.phrase_view called ≡ phrase.called place number given → Answers result (spec.step_faults names.old.globals names.old.locals (steps_of (map step_view steps.now))) (λ x. seen.phrase_view x ≡ spec.call_of names.old.globals place number given (spec.steps_resolved names.old.globals names.old.locals (steps_of (map step_view steps.now)))) }
    ensures names { OnOk result (names.new ≡ names.old) }
{
    match steps.first() {
        Some(Step::Brackets(_, parts)) => {
            if !takes(names, number, parts.len()) {
                return plain(alloc, names, steps, called);
            }
            let arguments = formulas(alloc, names, parts)?;
            let rest = steps_from(alloc, names, steps, 1)?;
            Ok(path_of(alloc, Phrase::Called(place, number, arguments), rest)?)
        }
        Some(Step::Join(_, _)) => plain(alloc, names, steps, called),
        None => plain(alloc, names, steps, called),
    }
}

// A call that takes no brackets.
#[cycle(parts)]
fn plain(
    alloc: Global,
    names: &mut Names,
    steps: &[Step],
    called: Phrase,
) -> Result<Phrase, NameFault>
    ensures value { Answers result (spec.step_faults names.old.globals names.old.locals (steps_of (map step_view steps.now))) (λ x. seen.phrase_view x ≡ spec.path_of (seen.phrase_view called) (spec.steps_resolved names.old.globals names.old.locals (steps_of (map step_view steps.now)))) }
    ensures names { OnOk result (names.new ≡ names.old) }
{
    let steps = steps_from(alloc, names, steps, 0)?;
    Ok(path_of(alloc, called, steps)?)
}

// Joins and brackets from a place on.
#[cycle(parts)]
fn steps_from(
    alloc: Global,
    names: &mut Names,
    steps: &[Step],
    from: usize,
) -> Result<Vec<PhraseStep>, NameFault>
    ensures value { Answers result (spec.step_faults names.old.globals names.old.locals (steps_of (map step_view (drop from steps.now)))) (λ xs. phrase.steps_of (map seen.step_view xs.items) ≡ spec.steps_resolved names.old.globals names.old.locals (steps_of (map step_view (drop from steps.now)))) }
    ensures names { OnOk result (names.new ≡ names.old) }
{
    let mut all = Vec::new(alloc);
    for place in from..steps.len() {
        let another = step_of(alloc, names, &steps[place])?;
        all.push(another)?;
    }
    Ok(all)
}

#[cycle(parts)]
fn step_of(alloc: Global, names: &mut Names, step: &Step) -> Result<PhraseStep, NameFault>
    ensures value { Answers result (faults_of_step names.old.globals names.old.locals (step_view step.now)) (λ x. (rest : phrase.StepTrees) → phrase.step_first (seen.step_view x) rest ≡ resolved_before names.old.globals names.old.locals (step_view step.now) rest) }
    ensures names { OnOk result (names.new ≡ names.old) }
{
    match step {
        Step::Join(place, node) => {
            let node = part(alloc, names, 0, node)?;
            Ok(PhraseStep::Join(*place, node))
        }
        Step::Brackets(place, nodes) => {
            let parts = formulas(alloc, names, nodes)?;
            Ok(PhraseStep::Brackets(*place, parts))
        }
    }
}

// The domains of variables, each of which sees the variables before, and all of which are entered.
#[cycle(parts)]
fn domains(
    alloc: Global,
    names: &mut Names,
    declarations: &[Declaration],
) -> Result<Vec<Domain>, NameFault>
    ensures value { Answers result (spec.declaration_faults names.old.globals names.old.locals (declarations_of (map declaration_view declarations.now))) (λ xs. phrase.domains_of (map seen.domain_view xs.items) ≡ spec.declarations_resolved names.old.globals names.old.locals (declarations_of (map declaration_view declarations.now))) }
    ensures names { OnOk result (names.new ≡ with_locals names.old (spec.behind_declarations names.old.locals (declarations_of (map declaration_view declarations.now)))) }
{
    let mut all = Vec::new(alloc);
    for declaration in declarations {
        single_of(declaration)?;
        let another = domain(alloc, names, declaration)?;
        all.push(another)?;
    }
    Ok(all)
}

// Variables that are to be single atoms.
fn single_of(declaration: &Declaration) -> Result<(), NameFault>
    ensures { Answers result (spec.mark_faults (declaration_view declaration.now).mark) (λ _. [] ≡ spec.mark_faults (declaration_view declaration.now).mark) }
{
    Ok(single(declaration.mark)?)
}

// The domain of variables, which are entered.
#[cycle(parts)]
pub fn domain(
    alloc: Global,
    names: &mut Names,
    declaration: &Declaration,
) -> Result<Domain, NameFault>
    ensures value { Answers result (spec.faults_of names.old.globals names.old.locals 0 (declaration_view declaration.now).domain) (λ x. seen.domain_view x ≡ domain_resolved names.old.globals names.old.locals (declaration_view declaration.now)) }
    ensures names { OnOk result (names.new ≡ with_locals names.old (spec.onto (declaration_view declaration.now).names names.old.locals)) }
{
    let domain = boxed(alloc, names, &declaration.domain)?;
    enter_all(alloc, names, &declaration.names)?;
    Ok(Domain {
        disjoint: declaration.disjoint,
        count: declaration.names.len(),
        mark: declaration.mark,
        domain: Box::into_inner(domain),
    })
}

// The values of the names of a `let`, each of which sees the names before, and all of which are entered.
#[cycle(parts)]
fn values(alloc: Global, names: &mut Names, bindings: &[Binding]) -> Result<Vec<Phrase>, NameFault>
    ensures value { Answers result (spec.binding_faults names.old.globals names.old.locals (bindings_of (map binding_view bindings.now))) (λ xs. seen.phrases_view xs.items ≡ spec.bindings_resolved names.old.globals names.old.locals (bindings_of (map binding_view bindings.now))) }
    ensures names { OnOk result (names.new ≡ with_locals names.old (spec.behind_bindings names.old.locals (bindings_of (map binding_view bindings.now)))) }
{
    let mut all = Vec::new(alloc);
    for binding in bindings {
        let another = value(alloc, names, binding)?;
        all.push(another)?;
    }
    Ok(all)
}

// The value of a name of a `let`, which is entered.
#[cycle(parts)]
fn value(alloc: Global, names: &mut Names, binding: &Binding) -> Result<Phrase, NameFault>
    ensures value { Answers result (spec.faults_of names.old.globals names.old.locals 0 (binding_view binding.now).value) (λ x. seen.phrase_view x ≡ spec.resolved names.old.globals names.old.locals (binding_view binding.now).value) }
    ensures names { OnOk result (names.new ≡ with_locals names.old ((binding_view binding.now).name.text ∷ names.old.locals)) }
{
    let value = boxed(alloc, names, &binding.value)?;
    names.enter(alloc, binding.name.text.text())?;
    Ok(Box::into_inner(value))
}
