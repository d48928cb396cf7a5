// Lists that are put into a set, one after the other.
ghost use Rattle.std.specs.Prelude.{◌≡◌, ◌++◌, [], ◌∷◌, List, ℕ, map, reverse, filter, flat_map, if◌then◌else◌, IfOk, OnOk};
ghost use Rattle.model_types.specs.Bounding.{has, joined, products, joins, meet, start_of, end_of, starting_in, ending_in, singles, doubles};
ghost use Rattle.model_types.specs.Bounds.Same.{lists_of, AreSame};

use crate::bounding_types::kept::BoundingType;
use crate::bounding_types::rows::{self, appended, end_of, meets, start_of};
use crate::bounding_types::work::Work;
use std::alloc::{AllocError, Global};

// Puts a list into a set, where the test says so.
fn put_if(
    alloc: Global,
    work: &mut Work,
    all: &mut BoundingType,
    test: bool,
    list: &[usize],
) -> Result<(), AllocError>
    ensures { OnOk result (AreSame all.new (all.old ++ (if test then list.now ∷ [] else []))) }
{
    work.look()?;
    if !test {
        return Ok(());
    }
    all.put(Vec::from_slice(alloc, list)?)
}

// Puts all lists into a set.
pub fn put_all(
    alloc: Global,
    work: &mut Work,
    all: &mut BoundingType,
    lists: &[Vec<usize>],
) -> Result<(), AllocError>
    ensures { OnOk result (AreSame all.new (all.old ++ lists_of lists.now)) }
{
    for list in lists {
        put_if(alloc, work, all, true, list)?;
    }
    Ok(())
}

// The lists that both have.
pub fn meet(
    alloc: Global,
    work: &mut Work,
    a: &BoundingType,
    b: &BoundingType,
) -> Result<BoundingType, AllocError>
    ensures { IfOk result (λ t. AreSame t (meet a.now b.now)) }
{
    let mut all = BoundingType::new(alloc);
    let lists = a.as_slice();
    for list in lists {
        put_if(alloc, work, &mut all, b.contains(list), list)?;
    }
    Ok(all)
}

// The lists that start with one of these signatures.
pub fn starting_in(
    alloc: Global,
    work: &mut Work,
    starts: &BoundingType,
    a: &BoundingType,
) -> Result<BoundingType, AllocError>
    ensures { IfOk result (λ t. AreSame t (starting_in starts.now a.now)) }
{
    let mut all = BoundingType::new(alloc);
    let lists = a.as_slice();
    for list in lists {
        put_if(alloc, work, &mut all, starts.contains(start_of(list)), list)?;
    }
    Ok(all)
}

// The lists that end with one of these signatures.
pub fn ending_in(
    alloc: Global,
    work: &mut Work,
    a: &BoundingType,
    ends: &BoundingType,
) -> Result<BoundingType, AllocError>
    ensures { IfOk result (λ t. AreSame t (ending_in a.now ends.now)) }
{
    let mut all = BoundingType::new(alloc);
    let lists = a.as_slice();
    for list in lists {
        put_if(alloc, work, &mut all, ends.contains(end_of(list)), list)?;
    }
    Ok(all)
}

// The lists turned round.
pub fn reversed(
    alloc: Global,
    work: &mut Work,
    a: &BoundingType,
) -> Result<BoundingType, AllocError>
    ensures { IfOk result (λ t. AreSame t (map reverse a.now)) }
{
    let mut all = BoundingType::new(alloc);
    let lists = a.as_slice();
    for list in lists {
        work.look()?;
        let mut turned = Vec::from_slice(alloc, list)?;
        turned.reverse();
        all.put(turned)?;
    }
    Ok(all)
}

// Each list of the one followed by each of the other.
pub fn products(
    alloc: Global,
    work: &mut Work,
    a: &BoundingType,
    b: &BoundingType,
) -> Result<BoundingType, AllocError>
    ensures { IfOk result (λ t. AreSame t (products a.now b.now)) }
{
    let mut all = BoundingType::new(alloc);
    let lists = a.as_slice();
    for left in lists {
        put_products(alloc, work, &mut all, left, b.as_slice())?;
    }
    Ok(all)
}

// Puts a list followed by each of the others into a set.
fn put_products(
    alloc: Global,
    work: &mut Work,
    all: &mut BoundingType,
    left: &[usize],
    lists: &[Vec<usize>],
) -> Result<(), AllocError>
    ensures { OnOk result (AreSame all.new (all.old ++ map (λ r. left.now ++ r) (lists_of lists.now))) }
{
    for right in lists {
        work.look()?;
        all.put(appended(alloc, left, right)?)?;
    }
    Ok(())
}

// Each list of the one joined with each of the other.
pub fn joins(
    alloc: Global,
    work: &mut Work,
    a: &BoundingType,
    b: &BoundingType,
) -> Result<BoundingType, AllocError>
    ensures { IfOk result (λ t. AreSame t (joins a.now b.now)) }
{
    let mut all = BoundingType::new(alloc);
    let lists = a.as_slice();
    for left in lists {
        put_joins(alloc, work, &mut all, left, b.as_slice())?;
    }
    Ok(all)
}

// Puts a list joined with each of the others into a set.
fn put_joins(
    alloc: Global,
    work: &mut Work,
    all: &mut BoundingType,
    left: &[usize],
    lists: &[Vec<usize>],
) -> Result<(), AllocError>
    ensures { OnOk result (AreSame all.new (all.old ++ flat_map (joined left.now) (lists_of lists.now))) }
{
    for right in lists {
        put_joined(alloc, work, all, left, right)?;
    }
    Ok(())
}

// Puts two lists that are joined into a set, where they meet.
fn put_joined(
    alloc: Global,
    work: &mut Work,
    all: &mut BoundingType,
    left: &[usize],
    right: &[usize],
) -> Result<(), AllocError>
    ensures { OnOk result (AreSame all.new (all.old ++ joined left.now right.now)) }
{
    work.look()?;
    if !meets(left, right) {
        return Ok(());
    }
    all.put(rows::joined(alloc, left, right)?)
}

// Each of these signatures alone.
pub fn singles(alloc: Global, work: &mut Work, tops: &[usize]) -> Result<BoundingType, AllocError>
    ensures { IfOk result (λ t. AreSame t (singles tops.now)) }
{
    let mut all = BoundingType::new(alloc);
    for top in tops {
        put_if(alloc, work, &mut all, true, &[*top])?;
    }
    Ok(all)
}

// Puts each of these signatures beside itself into a set.
pub fn put_doubles(
    alloc: Global,
    work: &mut Work,
    all: &mut BoundingType,
    tops: &[usize],
) -> Result<(), AllocError>
    ensures { OnOk result (AreSame all.new (all.old ++ doubles tops.now)) }
{
    for top in tops {
        put_if(alloc, work, all, true, &[*top, *top])?;
    }
    Ok(())
}
