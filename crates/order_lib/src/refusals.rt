// The first fault of the orderings of a model.
ghost use Rattle.std.specs.Prelude.{◌≡◌, map, option_map};
ghost use Rattle.alloy_syntax.specs.View.{paragraph_view};
ghost use Rattle.order_lib.specs.Faults as spec;

use crate::fault::OrderFault;
use crate::scopes::is_among;
use alloy_syntax::tree::{Multiplicity, MultiplicityWord, Open, Paragraph};

// Whether a paragraph declares a signature of this name.
fn declares(paragraph: &Paragraph, text: &str) -> bool
    ensures { result ≡ spec.declares (paragraph_view paragraph.now) text.now }
{
    match paragraph {
        Paragraph::Signatures(declared) => is_among(&declared.names, text),
        _ => false,
    }
}

// Whether signatures may have at most one atom by their word.
fn is_alone(mark: Option<MultiplicityWord>) -> bool
    ensures { result ≡ spec.is_alone mark }
{
    match mark {
        None => false,
        Some(word) => match word.multiplicity {
            Multiplicity::Set | Multiplicity::Some => false,
            Multiplicity::One | Multiplicity::Lone => true,
        },
    }
}

// Whether a paragraph declares signatures that may be ordered.
fn is_plain(paragraph: &Paragraph) -> bool
    ensures { result ≡ spec.is_plain (paragraph_view paragraph.now) }
{
    match paragraph {
        Paragraph::Signatures(declared) => {
            !declared.is_abstract && !is_alone(declared.mark) && declared.parent.is_none()
        }
        _ => false,
    }
}

// Whether the signature of this name may be ordered, if it is declared.
fn may_be_ordered(paragraphs: &[Paragraph], text: &str) -> Option<bool>
    ensures { result ≡ option_map spec.is_plain (spec.declaration_of (map paragraph_view paragraphs.now) text.now) }
{
    let mut rest = paragraphs;
    'each: while let [paragraph, others @ ..] = rest {
        if declares(paragraph, text) {
            return Some(is_plain(paragraph));
        }
        rest = others;
    }
    None
}

// Whether one of the orderings has this name.
fn has_alias(opens: &[Open], text: &str) -> bool
    ensures { result ≡ spec.has_alias opens.now text.now }
{
    let mut rest = opens;
    'each: while let [ordering, others @ ..] = rest {
        if ordering.alias.text.text() == text {
            return true;
        }
        rest = others;
    }
    false
}

// The fault of an ordering behind these.
fn fault_of(paragraphs: &[Paragraph], before: &[Open], ordering: &Open) -> Option<OrderFault>
    ensures { result ≡ spec.fault_of (map paragraph_view paragraphs.now) before.now ordering.now }
{
    match may_be_ordered(paragraphs, ordering.signature.text.text()) {
        None => Some(OrderFault::Unknown {
            place: ordering.signature.place,
        }),
        Some(false) => Some(OrderFault::NotPlain {
            place: ordering.signature.place,
        }),
        Some(true) => twice(before, ordering),
    }
}

// The fault of an ordering whose name is that of one of these.
fn twice(before: &[Open], ordering: &Open) -> Option<OrderFault>
    ensures { result ≡ spec.twice before.now ordering.now }
{
    if has_alias(before, ordering.alias.text.text()) {
        Some(OrderFault::Twice {
            place: ordering.alias.place,
        })
    } else {
        None
    }
}

/// The first fault of the orderings.
#[tactic(auto, using(crate::proofs::Faulting::next_fault))]
pub fn first_fault(paragraphs: &[Paragraph], opens: &[Open]) -> Option<OrderFault>
    ensures { result ≡ spec.first_fault (map paragraph_view paragraphs.now) opens.now }
{
    for number in 0..opens.len() {
        let fault = fault_of(paragraphs, &opens[..number], &opens[number]);
        if fault.is_some() {
            return fault;
        }
    }
    None
}
