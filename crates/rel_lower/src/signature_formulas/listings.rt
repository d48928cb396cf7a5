// Sizes that a scope lists.
ghost use Rattle.std.specs.Prelude.{◌≡◌, option_map, IfOk};
ghost use Rattle.rel_formula.specs.View.{expression_tree, formula_tree};
ghost use Rattle.model_sizes.specs.Sizes.{is_for, listing_for, is_alone};
ghost use Rattle.lowering_rules.specs.Formula.{listing_says};
ghost use Rattle.rel_lower.specs.Signatures.Said.{Says};
ghost use Rattle.rel_lower.specs.Signatures.Extending.{size_says, size_in};

use crate::signature_formulas::relations::relation;
use alloy_syntax::tree::{Multiplicity, MultiplicityWord};
use body_lowering::kernel_parts::counts::{at_most, exactly};
use named_model::named::{Listing, Signature};
use rel_formula::{Expression, Formula};
use std::alloc::{AllocError, Global};

/// Adds the size that is listed for a signature, unless its bounds say it: those of a top-level signature that is neither `one`
/// nor `lone` do.
pub fn add_listing(
    alloc: Global,
    formulas: &mut Vec<Formula>,
    declared: &Signature,
    listings: &[Listing],
    signature: usize,
) -> Result<(), AllocError>
    ensures { IfOk result (λ _. Says formulas.old.items formulas.new.items (listing_says declared.now signature (listing_for listings.now signature))) }
{
    match listed_size(listings, signature) {
        None => Ok(()),
        Some((is_exact, number)) => {
            if declared.parent.is_some() || is_alone(declared.mark) {
                formulas.push(sized(alloc, is_exact, number, relation(signature)?)?)?;
            }
            Ok(())
        }
    }
}

// That an expression has so many tuples, or no more.
fn sized(alloc: Global, is_exact: bool, number: u16, e: Expression) -> Result<Formula, AllocError>
    ensures { IfOk result (λ f. formula_tree f ≡ size_says is_exact number (expression_tree e)) }
{
    if is_exact {
        exactly(alloc, number, e)
    } else {
        at_most(alloc, number, e)
    }
}

// The first size that is listed for a signature, and whether it is exact.
fn listed_size(listings: &[Listing], signature: usize) -> Option<(bool, u16)>
    ensures { result ≡ option_map size_in (listing_for listings.now signature) }
{
    for listing in listings {
        if is_for(signature, listing) {
            return Some((listing.exactly, listing.number.value));
        }
    }
    None
}

// Whether a listing is of the signature.
fn is_for(signature: usize, listing: &Listing) -> bool
    ensures { result ≡ is_for signature listing.now }
{
    listing.signature == Some(signature)
}

// Whether the word is `one` or `lone`.
fn is_alone(mark: Option<MultiplicityWord>) -> bool
    ensures { result ≡ is_alone mark }
{
    match mark {
        None => false,
        Some(mark) => match mark.multiplicity {
            Multiplicity::One | Multiplicity::Lone => true,
            Multiplicity::Set | Multiplicity::Some => false,
        },
    }
}
