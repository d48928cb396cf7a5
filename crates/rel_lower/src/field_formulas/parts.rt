// Formulas behind a binder, and the sides of a bound.
ghost use Rattle.std.specs.Prelude.{◌≡◌, IfOk, map, option_map, option_to_list};
ghost use Rattle.rel_formula.specs.Kernel.{rel, for_all};
ghost use Rattle.rel_formula.specs.View.{expression_tree, formula_tree};
ghost use Rattle.named_model.specs.Phrase.{links_of};
ghost use Rattle.named_model.specs.View.{phrase_view, link_view};
ghost use Rattle.model_types.specs.Models.{sides_of, only_link};
ghost use Rattle.rel_lower.specs.Signatures.Said.{Says};

use crate::signature_formulas::relations::relation;
use named_model::phrase::{Link, Phrase};
use rel_formula::{Expression, Formula, Quantifier};
use std::alloc::{AllocError, Global};

/// The formula of each atom of the domain.
pub fn for_all(alloc: Global, domain: Expression, body: Formula) -> Result<Formula, AllocError>
    ensures { IfOk result (λ f. formula_tree f ≡ for_all (expression_tree domain) (formula_tree body)) }
{
    Ok(Formula::Quantified(Quantifier::All, domain, Box::new(alloc, body)?))
}

/// Adds a formula of each atom of the relation of that number, if there is one.
pub fn add_for_all(
    alloc: Global,
    formulas: &mut Vec<Formula>,
    number: usize,
    body: Option<Formula>,
) -> Result<(), AllocError>
    ensures { IfOk result (λ _. Says formulas.old.items formulas.new.items (map (for_all (rel number)) (option_to_list (option_map formula_tree body)))) }
{
    match body {
        None => Ok(()),
        Some(body) => {
            let formula = for_all(alloc, relation(number)?, body)?;
            Ok(formulas.push(formula)?)
        }
    }
}

/// The two sides of a bound that is one arrow, in brackets or not.
pub fn sides<'a>(bound: &'a Phrase) -> Option<(&'a Phrase, &'a Phrase)>
    ensures { option_map (λ both. (phrase_view both.0.now, phrase_view both.1.now)) result ≡ sides_of (phrase_view bound.now) }
{
    match bound {
        Phrase::Bracketed(_, inner) => sides(inner),
        Phrase::Chain(first, links) => only_link(first, links),
        _ => None,
    }
}

// The two sides of a chain with one operator.
fn only_link<'a>(first: &'a Phrase, links: &'a [Link]) -> Option<(&'a Phrase, &'a Phrase)>
    ensures { option_map (λ both. (phrase_view both.0.now, phrase_view both.1.now)) result ≡ only_link (phrase_view first.now) (links_of (map link_view links.now)) }
{
    if links.len() == 1 {
        Some((first, &links[0].operand))
    } else {
        None
    }
}
