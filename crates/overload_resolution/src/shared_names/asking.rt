// Where the type of what stands before asks which field a name is.
ghost use Rattle.std.specs.Prelude.{◌≡◌, map};
ghost use Rattle.named_model.specs.Phrase.{links_of, steps_of};
ghost use Rattle.named_model.specs.View.{phrase_view, link_view, step_view};
ghost use Rattle.model_types.specs.Typing.{is_shared};
ghost use Rattle.overload_resolution.specs.Names.Asking.{asks_in_links, asks_in_steps, link_asks, step_asks};
ghost use Rattle.overload_resolution.specs.Names.Shared.{is_shared_name};

use alloy_syntax::tree::Operator;
use named_model::phrase::{Link, Phrase, Referent, Step};

/// Whether a part is a name of several fields, in brackets or not.
pub fn is_shared(phrase: &Phrase) -> bool
    ensures { result ≡ is_shared (phrase_view phrase.now) }
{
    match phrase {
        Phrase::Refers(_, referent) => matches!(*referent, Referent::Shared(_)),
        Phrase::Bracketed(_, inner) => is_shared(inner),
        _ => false,
    }
}

/// Whether the operands of a chain ask for the type of what stands before them: a shared name behind `<:` does.
pub fn asks_in_links(links: &[Link]) -> bool
    ensures { result ≡ asks_in_links (links_of (map link_view links.now)) }
{
    for link in links {
        if link_asks(link) {
            return true;
        }
    }
    false
}

fn link_asks(link: &Link) -> bool
    ensures { result ≡ link_asks (link_view link.now) }
{
    match link.operator {
        Operator::Domain => is_shared(&link.operand),
        _ => false,
    }
}

/// Whether what stands behind an expression asks for the type before it: a shared name behind `.` does.
pub fn asks_in_steps(steps: &[Step]) -> bool
    ensures { result ≡ asks_in_steps (steps_of (map step_view steps.now)) }
{
    for step in steps {
        if step_asks(step) {
            return true;
        }
    }
    false
}

fn step_asks(step: &Step) -> bool
    ensures { result ≡ step_asks (step_view step.now) }
{
    match step {
        Step::Join(_, operand) => is_shared(operand),
        Step::Brackets(_, _) => false,
    }
}
