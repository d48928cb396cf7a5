// The predicates and functions that are called in a part.
ghost use Rattle.std.specs.Prelude.{◌≡◌, ◌++◌, map, IfOk, OnOk};
ghost use Rattle.named_model.specs.Faults.{calls_in, calls_in_all, calls_in_links, calls_in_steps, calls_in_domains, calls_in_meaning, callees_of};
ghost use Rattle.named_model.specs.Phrase.{links_of, steps_of, domains_of};
ghost use Rattle.named_model.specs.View.{phrase_view, phrases_view, link_view, step_view, domain_view, meaning_view, callee_view};
ghost use Rattle.reference_cycles.specs.Recursion.Calls.{calls_in_step};

use named_model::named::{Callee, Meaning};
use named_model::phrase::{Domain, Link, Phrase, Step};
use std::alloc::{AllocError, Global};

// The numbers that a predicate or a function calls.
pub fn calls_of(alloc: Global, callee: &Callee) -> Result<Vec<usize>, AllocError>
    ensures { IfOk result (λ calls. calls.items ≡ callees_of (callee_view callee.now)) }
{
    let mut calls = Vec::new(alloc);
    add_domains(&mut calls, &callee.parameters)?;
    add_meaning(&mut calls, &callee.meaning)?;
    Ok(calls)
}

fn add_meaning(calls: &mut Vec<usize>, meaning: &Meaning) -> Result<(), AllocError>
    ensures { OnOk result (calls.new.items ≡ calls.old.items ++ calls_in_meaning (meaning_view meaning.now)) }
{
    match meaning {
        Meaning::Formulas(formulas) => add_all(calls, formulas),
        Meaning::Value(range, body) => {
            add(calls, range)?;
            add(calls, body)
        }
    }
}

// Adds the numbers that are called in a part, in the order of the text.
#[cycle(calls)]
fn add(calls: &mut Vec<usize>, phrase: &Phrase) -> Result<(), AllocError>
    ensures { OnOk result (calls.new.items ≡ calls.old.items ++ calls_in (phrase_view phrase.now)) }
{
    match phrase {
        Phrase::Refers(_, _) => Ok(()),
        Phrase::Called(_, number, arguments) => {
            calls.push(*number)?;
            add_all(calls, arguments)
        }
        Phrase::Numbered(_) => Ok(()),
        Phrase::Constant(_, _) => Ok(()),
        Phrase::Bracketed(_, inner) => add(calls, inner),
        Phrase::Block(_, parts) => add_all(calls, parts),
        Phrase::Prefixed(_, _, inner) => add(calls, inner),
        Phrase::Chain(first, links) => {
            add(calls, first)?;
            add_links(calls, links)
        }
        Phrase::Path(head, steps) => {
            add(calls, head)?;
            add_steps(calls, steps)
        }
        Phrase::Compared(left, _, right) => {
            add(calls, left)?;
            add(calls, right)
        }
        Phrase::Implies(left, _, right) => {
            add(calls, left)?;
            add(calls, right)
        }
        Phrase::ImpliesElse(left, _, right, other) => {
            add(calls, left)?;
            add(calls, right)?;
            add(calls, other)
        }
        Phrase::Quantified(_, _, domains, inner) => {
            add_domains(calls, domains)?;
            add(calls, inner)
        }
        Phrase::Let(_, values, inner) => {
            add_all(calls, values)?;
            add(calls, inner)
        }
    }
}

#[cycle(calls)]
fn add_all(calls: &mut Vec<usize>, phrases: &[Phrase]) -> Result<(), AllocError>
    ensures { OnOk result (calls.new.items ≡ calls.old.items ++ calls_in_all (phrases_view phrases.now)) }
{
    for phrase in phrases {
        add(calls, phrase)?;
    }
    Ok(())
}

#[cycle(calls)]
fn add_links(calls: &mut Vec<usize>, links: &[Link]) -> Result<(), AllocError>
    ensures { OnOk result (calls.new.items ≡ calls.old.items ++ calls_in_links (links_of (map link_view links.now))) }
{
    for link in links {
        add_link(calls, link)?;
    }
    Ok(())
}

#[cycle(calls)]
fn add_link(calls: &mut Vec<usize>, link: &Link) -> Result<(), AllocError>
    ensures { OnOk result (calls.new.items ≡ calls.old.items ++ calls_in (link_view link.now).operand) }
{
    add(calls, &link.operand)
}

#[cycle(calls)]
fn add_steps(calls: &mut Vec<usize>, steps: &[Step]) -> Result<(), AllocError>
    ensures { OnOk result (calls.new.items ≡ calls.old.items ++ calls_in_steps (steps_of (map step_view steps.now))) }
{
    for step in steps {
        add_step(calls, step)?;
    }
    Ok(())
}

#[cycle(calls)]
fn add_step(calls: &mut Vec<usize>, step: &Step) -> Result<(), AllocError>
    ensures { OnOk result (calls.new.items ≡ calls.old.items ++ calls_in_step (step_view step.now)) }
{
    match step {
        Step::Join(_, phrase) => add(calls, phrase),
        Step::Brackets(_, phrases) => add_all(calls, phrases),
    }
}

#[cycle(calls)]
fn add_domains(calls: &mut Vec<usize>, domains: &[Domain]) -> Result<(), AllocError>
    ensures { OnOk result (calls.new.items ≡ calls.old.items ++ calls_in_domains (domains_of (map domain_view domains.now))) }
{
    for domain in domains {
        add_domain(calls, domain)?;
    }
    Ok(())
}

#[cycle(calls)]
fn add_domain(calls: &mut Vec<usize>, domain: &Domain) -> Result<(), AllocError>
    ensures { OnOk result (calls.new.items ≡ calls.old.items ++ calls_in (domain_view domain.now).domain) }
{
    add(calls, &domain.domain)
}
