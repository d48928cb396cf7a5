// What is listed for each signature, and what its extensions add up to.
ghost use Rattle.std.specs.Prelude.{◌≡◌, ◌<◌, [], length, Ok, MatchResult, IfOk};
ghost use Rattle.model_sizes.specs.Sizes.{listings_checked, is_alone, IsFaultOf};
ghost use Rattle.model_sizes.specs.Tables.{IsListed, AreSums, unlisted, addend_with, plus, with_extension};

use alloy_syntax::tree::{Manner, Multiplicity, MultiplicityWord};
use named_model::NameFault;
use named_model::named::{Listing, Signature};
use std::alloc::{AllocError, Global};

/// The largest number that a scope may have.
pub const SCOPE_LIMIT: u16 = 32;

/// What a scope lists for a signature.
#[derive(Clone, Copy)]
pub struct Listed {
    pub places: u16,
    pub exact: bool,
}

/// What the extensions of a signature add up to: nothing where it has none, and unknown where one of them has no size.
/// A sum above 32 is 33.
#[derive(Clone, Copy)]
pub enum Sum {
    Empty,
    Known(u16),
    Unknown,
}

/// What the listings say of so many signatures, or the first fault of a listing.
pub fn listed_sizes(
    alloc: Global,
    count: usize,
    listings: &[Listing],
) -> Result<Vec<Option<Listed>>, NameFault>
    ensures { MatchResult result (λ table. (listings_checked count [] listings.now ≡ Ok tt) × IsListed count listings.now table.items) (λ e. IsFaultOf e (listings_checked count [] listings.now)) }
{
    let mut table = vec![in alloc; None; count]?;
    for listing in listings {
        let signature = unlisted(&table, listing)?;
        table[signature] = Some(Listed {
            places: listing.number.value,
            exact: listing.exactly,
        });
    }
    Ok(table)
}

// The signature of a listing, which isn't listed before, and whose size is small.
fn unlisted(table: &[Option<Listed>], listing: &Listing) -> Result<usize, NameFault>
    ensures value { result ≡ unlisted table.now listing.now }
    ensures there { IfOk result (λ s. s < length table.now) }
{
    let Some(signature) = listing.signature else {
        return Err(NameFault::UnknownScope);
    };
    if signature >= table.len() {
        return Err(NameFault::UnknownScope);
    }
    if table[signature].is_some() {
        return Err(NameFault::Twice {
            place: listing.place,
        });
    }
    if listing.number.value > SCOPE_LIMIT {
        return Err(NameFault::ScopeTooLarge);
    }
    Ok(signature)
}

/// What the extensions of each signature add up to.
pub fn sums_of_extensions(
    alloc: Global,
    signatures: &[Signature],
    table: &[Option<Listed>],
) -> Result<Vec<Sum>, AllocError>
    requires { length table.now ≡ length signatures.now }
    ensures { IfOk result (λ sums. AreSums signatures.now table.now sums.items) }
{
    let mut sums = vec![in alloc; Sum::Empty; signatures.len()]?;
    for number in 0..signatures.len() {
        add_to_parent(&mut sums, &signatures[number], table[number]);
    }
    Ok(sums)
}

// Adds the size of a signature to the sum of the one that it extends, if it extends one.
fn add_to_parent(sums: &mut Vec<Sum>, signature: &Signature, listed: Option<Listed>)
    ensures { sums.new.items ≡ with_extension sums.old.items signature.now listed }
{
    if let Some((Manner::Extends, parent)) = signature.parent {
        if parent < sums.len() {
            sums[parent] = plus(sums[parent], addend(signature, listed));
        }
    }
}

// What an extension adds: the size that is listed for it, or 1 with `one` or `lone`.
fn addend(signature: &Signature, listed: Option<Listed>) -> Option<u16>
    ensures { result ≡ addend_with signature.now listed }
{
    match listed {
        Some(listed) => Some(listed.places),
        None if is_alone(signature.mark) => Some(1),
        None => None,
    }
}

fn plus(sum: Sum, number: Option<u16>) -> Sum
    ensures { result ≡ plus sum number }
{
    match (sum, number) {
        (_, None) => Sum::Unknown,
        (Sum::Empty, Some(n)) => Sum::Known(n.min(SCOPE_LIMIT + 1)),
        (Sum::Known(m), Some(n)) => Sum::Known(m.saturating_add(n).min(SCOPE_LIMIT + 1)),
        (Sum::Unknown, Some(_)) => Sum::Unknown,
    }
}

/// Whether the word is `one` or `lone`.
pub fn is_alone(mark: Option<MultiplicityWord>) -> bool
    ensures { result ≡ is_alone mark }
{
    match mark {
        Some(mark) => matches!(mark.multiplicity, Multiplicity::One | Multiplicity::Lone),
        None => false,
    }
}
