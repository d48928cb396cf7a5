// The sizes of top-level signatures under a command.
ghost use Rattle.std.specs.Prelude.{◌≡◌, ◌+◌, length, map, MatchResult, min, Ok, Some, None, option_map};
ghost use Rattle.named_model.specs.Signatures.{tops};
ghost use Rattle.named_model.specs.View.{named_view, command_view, scope_view};
ghost use Rattle.model_sizes.specs.Sizes.{default_of, default_checked, listings_of, size, by_default, is_one, few_places, places_in, scope_at, sizes_in, sizes_under, IsFaultOf};
ghost use Rattle.model_sizes.specs.Tables.{size_with, by_sum_with, sizes_with};

use crate::size::{Size, Sizes};
use crate::tables::{Listed, SCOPE_LIMIT, Sum, is_alone, listed_sizes, sums_of_extensions};
use alloy_syntax::tree::{Multiplicity, MultiplicityWord};
use named_model::named::{Listing, Scope, Signature};
use named_model::{NameFault, Named};
use std::alloc::Global;

// The largest number of places in all.
const PLACES_LIMIT: u16 = 64;

/// The sizes of the top-level signatures under the command of that number, which are numbered from 1; or the first fault of
/// its scope.
pub fn sizes(alloc: Global, named: &Named, command: u32) -> Result<Sizes, NameFault>
    ensures { MatchResult result (λ sizes. sizes_in (named_view named.now) command ≡ Ok sizes) (λ e. IsFaultOf e (sizes_in (named_view named.now) command)) }
{
    let scope = scope_of(named, command);
    Ok(sizes_under(
        alloc,
        &named.signatures,
        default_of(scope),
        listings_of(scope),
    )?)
}

// The sizes under a default and what is listed.
fn sizes_under(
    alloc: Global,
    signatures: &[Signature],
    default: Option<u16>,
    listings: &[Listing],
) -> Result<Sizes, NameFault>
    ensures { MatchResult result (λ sizes. sizes_under signatures.now default listings.now ≡ Ok sizes) (λ e. IsFaultOf e (sizes_under signatures.now default listings.now)) }
{
    check_default(default)?;
    let table = listed_sizes(alloc, signatures.len(), listings)?;
    let sums = sums_of_extensions(alloc, signatures, &table)?;
    let sizes = top_sizes(alloc, signatures, &table, &sums, default)?;
    Ok(few(sizes)?)
}

// The sizes, if they are not too many places.
fn few(sizes: Vec<Size>) -> Result<Sizes, NameFault>
    ensures { few_places sizes.items ≡ result }
{
    if places_in(&sizes) > PLACES_LIMIT {
        return Err(NameFault::TooManyAtoms);
    }
    Ok(Sizes::of(sizes))
}

// The scope of the command of that number.
fn scope_of<'a>(named: &'a Named, command: u32) -> Option<&'a Scope>
    ensures { option_map (λ scope. scope_view scope.now) result ≡ scope_at (map command_view named.now.commands.items) command }
{
    let command = named.commands.get((command as usize).saturating_sub(1))?;
    command.scope.as_ref()
}

// The default, which is 3 where no scope is given.
fn default_of(scope: Option<&Scope>) -> Option<u16>
    ensures { result ≡ default_of (option_map (λ scope. scope_view scope.now) scope.entry) }
{
    match scope {
        None => Some(3),
        Some(scope) => scope.default.map(|number| number.value),
    }
}

fn check_default(default: Option<u16>) -> Result<(), NameFault>
    ensures { result ≡ default_checked default }
{
    match default {
        Some(number) if number > SCOPE_LIMIT => Err(NameFault::ScopeTooLarge),
        _ => Ok(()),
    }
}

fn listings_of<'a>(scope: Option<&'a Scope>) -> &'a [Listing]
    ensures { result.now ≡ listings_of (option_map (λ scope. scope_view scope.now) scope.entry) }
{
    match scope {
        None => &[],
        Some(scope) => scope.listings.as_slice(),
    }
}

// The sizes of the top-level signatures, or the first fault.
fn top_sizes(
    alloc: Global,
    signatures: &[Signature],
    table: &[Option<Listed>],
    sums: &[Sum],
    default: Option<u16>,
) -> Result<Vec<Size>, NameFault>
    requires table { length table.now ≡ length signatures.now }
    requires sums { length sums.now ≡ length signatures.now }
    ensures { MatchResult result (λ sizes. sizes_with signatures.now table.now sums.now default (tops signatures.now) ≡ Ok sizes.items) (λ e. IsFaultOf e (sizes_with signatures.now table.now sums.now default (tops signatures.now))) }
{
    let mut sizes = Vec::new(alloc);
    for number in 0..signatures.len() {
        let signature = &signatures[number];
        if signature.parent.is_some() {
            continue;
        }
        sizes.push(size_of(number, signature, table[number], sums[number], default)?)?;
    }
    Ok(sizes)
}

// The size of a top-level signature, by the first rule that applies.
fn size_of(
    number: usize,
    signature: &Signature,
    listed: Option<Listed>,
    sum: Sum,
    default: Option<u16>,
) -> Result<Size, NameFault>
    ensures { result ≡ size_with number signature.now listed sum default }
{
    if is_alone(signature.mark) {
        return Ok(size(number, 1, is_one(signature.mark)));
    }
    if let Some(listed) = listed {
        return Ok(size(number, listed.places, listed.exact));
    }
    match sum {
        Sum::Known(places) if signature.is_abstract => size_by_sum(number, places),
        _ => size_by_default(number, default),
    }
}

fn size(signature: usize, places: u16, exact: bool) -> Size
    ensures { result ≡ size signature places exact }
{
    Size {
        signature,
        places,
        exact,
    }
}

fn size_by_sum(number: usize, sum: u16) -> Result<Size, NameFault>
    ensures { result ≡ by_sum_with number (Some sum) None }
{
    if sum > SCOPE_LIMIT {
        return Err(NameFault::ScopeTooLarge);
    }
    Ok(size(number, sum, false))
}

fn size_by_default(number: usize, default: Option<u16>) -> Result<Size, NameFault>
    ensures { result ≡ by_default number default }
{
    match default {
        Some(places) => Ok(size(number, places, false)),
        None => Err(NameFault::NoScope),
    }
}

fn is_one(mark: Option<MultiplicityWord>) -> bool
    ensures { result ≡ is_one mark }
{
    match mark {
        Some(mark) => matches!(mark.multiplicity, Multiplicity::One),
        None => false,
    }
}

// How many places these are, or 65 where they are more.
fn places_in(sizes: &[Size]) -> u16
    ensures { result ≡ min (places_in sizes.now) 65 }
{
    let mut places = 0;
    for size in sizes {
        places = with_places(places, size.places);
    }
    places
}

fn with_places(places: u16, more: u16) -> u16
    ensures { result ≡ min (places + more) 65 }
{
    places.saturating_add(more).min(PLACES_LIMIT + 1)
}
