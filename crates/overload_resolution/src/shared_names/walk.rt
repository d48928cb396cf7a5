// Whether a name of several fields stands in a part.
ghost use Rattle.std.specs.Prelude.{◌≡◌, map};
ghost use Rattle.named_model.specs.Phrase.{links_of, steps_of, domains_of};
ghost use Rattle.named_model.specs.View.{phrase_view, phrases_view, link_view, step_view, domain_view};
ghost use Rattle.overload_resolution.specs.Names.Shared.{is_shared_name, shared_in, shared_among, shared_in_links, shared_in_steps, shared_in_step, shared_in_domains};

use named_model::phrase::{Domain, Link, Phrase, Referent, Step};

/// Whether such a name stands in a part.
#[cycle(walk)]
pub fn is_in(phrase: &Phrase) -> bool
    ensures { result ≡ shared_in (phrase_view phrase.now) }
{
    match phrase {
        Phrase::Refers(_, referent) => is_shared_name(*referent),
        Phrase::Called(_, _, phrases) => is_among(phrases),
        Phrase::Numbered(_) => false,
        Phrase::Constant(_, _) => false,
        Phrase::Bracketed(_, inner) => is_in(inner),
        Phrase::Block(_, phrases) => is_among(phrases),
        Phrase::Prefixed(_, _, inner) => is_in(inner),
        Phrase::Chain(first, links) => is_in(first) || is_in_links(links),
        Phrase::Path(first, steps) => is_in(first) || is_in_steps(steps),
        Phrase::Compared(left, _, right) => is_in(left) || is_in(right),
        Phrase::Implies(left, _, right) => is_in(left) || is_in(right),
        Phrase::ImpliesElse(left, _, right, other) => {
            is_in(left) || is_in(right) || is_in(other)
        }
        Phrase::Quantified(_, _, domains, inner) => is_in_domains(domains) || is_in(inner),
        Phrase::Let(_, values, inner) => is_among(values) || is_in(inner),
    }
}

fn is_shared_name(referent: Referent) -> bool
    ensures { result ≡ is_shared_name referent }
{
    matches!(referent, Referent::Shared(_))
}

/// Whether such a name stands in one of these parts.
#[cycle(walk)]
pub fn is_among(phrases: &[Phrase]) -> bool
    ensures { result ≡ shared_among (phrases_view phrases.now) }
{
    for phrase in phrases {
        if is_in(phrase) {
            return true;
        }
    }
    false
}

// Whether such a name stands in the operands of a chain behind the first one.
#[cycle(walk)]
fn is_in_links(links: &[Link]) -> bool
    ensures { result ≡ shared_in_links (links_of (map link_view links.now)) }
{
    for link in links {
        if is_in(&link.operand) {
            return true;
        }
    }
    false
}

// Whether such a name stands in what is behind an expression.
#[cycle(walk)]
fn is_in_steps(steps: &[Step]) -> bool
    ensures { result ≡ shared_in_steps (steps_of (map step_view steps.now)) }
{
    for step in steps {
        if is_in_step(step) {
            return true;
        }
    }
    false
}

#[cycle(walk)]
fn is_in_step(step: &Step) -> bool
    ensures { result ≡ shared_in_step (step_view step.now) }
{
    match step {
        Step::Join(_, operand) => is_in(operand),
        Step::Brackets(_, arguments) => is_among(arguments),
    }
}

/// Whether such a name stands in a domain.
#[cycle(walk)]
pub fn is_in_domains(domains: &[Domain]) -> bool
    ensures { result ≡ shared_in_domains (domains_of (map domain_view domains.now)) }
{
    for domain in domains {
        if is_in(&domain.domain) {
            return true;
        }
    }
    false
}
