// Arrows anywhere in an expression or a formula.
ghost use Rattle.std.specs.Prelude.{◌≡◌, map};
ghost use Rattle.alloy_syntax.specs.Tree.{trees_of, links_of, steps_of, declarations_of, bindings_of};
ghost use Rattle.alloy_syntax.specs.View.{view, views, link_view, step_view, declaration_view, binding_view};
ghost use Rattle.named_model.specs.Faults as spec;
ghost use Rattle.sig_resolve.specs.Commands.Arrows.{has_link_arrow, has_step_arrow};

use alloy_syntax::tree::{Binding, Declaration, Link, Node, Operator, Step};

// Whether an arrow stands anywhere in a part.
#[cycle(arrows)]
pub fn has_arrow(node: &Node) -> bool
    ensures { result ≡ spec.has_arrow (view node.now) }
{
    match node {
        Node::Named(_) => false,
        Node::Numbered(_) => false,
        Node::Constant(_, _) => false,
        Node::Bracketed(_, inner) => has_arrow(inner),
        Node::Block(_, nodes) => is_in_nodes(nodes),
        Node::Prefixed(_, _, inner) => has_arrow(inner),
        Node::Chain(first, links) => has_arrow(first) || is_in_links(links),
        Node::Path(head, steps) => has_arrow(head) || is_in_steps(steps),
        Node::Compared(left, _, right) => has_arrow(left) || has_arrow(right),
        Node::Implies(left, _, right) => has_arrow(left) || has_arrow(right),
        Node::ImpliesElse(left, _, right, other) => {
            has_arrow(left) || has_arrow(right) || has_arrow(other)
        }
        Node::Quantified(_, _, declarations, inner) => {
            is_in_domains(declarations) || has_arrow(inner)
        }
        Node::Let(_, bindings, inner) => is_in_values(bindings) || has_arrow(inner),
    }
}

#[cycle(arrows)]
fn is_in_nodes(nodes: &[Node]) -> bool
    ensures { result ≡ spec.some_has_arrow (trees_of (views nodes.now)) }
{
    for node in nodes {
        if has_arrow(node) {
            return true;
        }
    }
    false
}

#[cycle(arrows)]
fn is_in_links(links: &[Link]) -> bool
    ensures { result ≡ spec.link_has_arrow (links_of (map link_view links.now)) }
{
    for link in links {
        if is_in_link(link) {
            return true;
        }
    }
    false
}

#[cycle(arrows)]
fn is_in_link(link: &Link) -> bool
    ensures { result ≡ has_link_arrow (link_view link.now) }
{
    matches!(link.operator, Operator::Product) || has_arrow(&link.operand)
}

#[cycle(arrows)]
fn is_in_steps(steps: &[Step]) -> bool
    ensures { result ≡ spec.step_has_arrow (steps_of (map step_view steps.now)) }
{
    for step in steps {
        if is_in_step(step) {
            return true;
        }
    }
    false
}

#[cycle(arrows)]
fn is_in_step(step: &Step) -> bool
    ensures { result ≡ has_step_arrow (step_view step.now) }
{
    match step {
        Step::Join(_, node) => has_arrow(node),
        Step::Brackets(_, nodes) => is_in_nodes(nodes),
    }
}

#[cycle(arrows)]
fn is_in_domains(declarations: &[Declaration]) -> bool
    ensures { result ≡ spec.domain_has_arrow (declarations_of (map declaration_view declarations.now)) }
{
    for declaration in declarations {
        if is_in_domain(declaration) {
            return true;
        }
    }
    false
}

#[cycle(arrows)]
fn is_in_domain(declaration: &Declaration) -> bool
    ensures { result ≡ spec.has_arrow (declaration_view declaration.now).domain }
{
    has_arrow(&declaration.domain)
}

#[cycle(arrows)]
fn is_in_values(bindings: &[Binding]) -> bool
    ensures { result ≡ spec.binding_has_arrow (bindings_of (map binding_view bindings.now)) }
{
    for binding in bindings {
        if is_in_value(binding) {
            return true;
        }
    }
    false
}

#[cycle(arrows)]
fn is_in_value(binding: &Binding) -> bool
    ensures { result ≡ spec.has_arrow (binding_view binding.now).value }
{
    has_arrow(&binding.value)
}
