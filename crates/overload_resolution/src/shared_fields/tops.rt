// Sets of top-level signatures, as bounding types have them.
ghost use Rattle.std.specs.Prelude.{◌≡◌, ◌++◌, ◌==◌, [], ◌∷◌, IfOk, OnOk, OnErr};
ghost use Rattle.std.specs.List.{list_any};
ghost use Rattle.model_types.specs.Bounding.{Lists, end_of};
ghost use Rattle.model_types.specs.Typing.{ends_of, alone_in, tops_behind};
ghost use Rattle.model_types.specs.Bounds.Same.{lists_of, AreSame};
ghost use Rattle.overload_resolution.specs.Fields.Alike.{AreAlike, single};

use alloy_syntax::tree::Operator;
use indexmap::IndexSet;
use model_types::bounding_types::BoundingType;
use std::alloc::{AllocError, Global};
use std::marker::Model;

/// A set of top-level signatures. Contracts see their numbers, in the order in which they were put into it.
#[derive(Drop)]
pub struct Tops {
    numbers: IndexSet<usize>,
}

impl Model for Tops {
    ghost use Rattle.std.specs.Prelude.{List, ℕ};

    ghost Value = { List ℕ };

    ghost view = { λ t. t.numbers.keys };
}

impl Tops {
    /// No signature.
    pub fn new(alloc: Global) -> Tops
        ensures { result ≡ [] }
    {
        Tops {
            numbers: IndexSet::new(alloc),
        }
    }

    /// Whether a signature is one of these.
    pub fn contains(&self, number: usize) -> bool
        ensures { result ≡ list_any (λ t. t == number) self.now }
    {
        self.numbers.contains(&number)
    }

    /// The signatures.
    pub fn as_slice(&self) -> &[usize]
        ensures { result.now ≡ self.now }
    {
        self.numbers.as_slice()
    }

    // Puts these signatures into the set.
    fn put_all(&mut self, numbers: &[usize]) -> Result<(), AllocError>
        ensures { OnOk result (AreAlike self.new (self.old ++ numbers.now)) }
    {
        for number in numbers {
            self.put(*number)?;
        }
        Ok(())
    }

    // Puts a signature into the set.
    fn put(&mut self, number: usize) -> Result<(), AllocError>
        ensures { OnOk result (AreAlike self.new (self.old ++ number ∷ [])) }
    {
        self.numbers.insert_full(number)?;
        Ok(())
    }
}

/// The signatures with which the lists of a type end, whatever lists stand for it.
pub fn ends_of(alloc: Global, a: &BoundingType) -> Result<Tops, AllocError>
    ensures { IfOk result (λ ts. (x : Lists) → AreSame a.now x → AreAlike ts (ends_of x)) }
{
    let ends = ends(alloc, a.as_slice())?;
    Ok(ends)
}

/// The signatures to which a name of several fields belongs that stands behind an operator, by the type of what stands before
/// it, whatever lists stand for that.
pub fn tops_behind(alloc: Global, operator: Operator, a: &BoundingType) -> Result<Tops, AllocError>
    ensures { IfOk result (λ ts. (x : Lists) → AreSame a.now x → AreAlike ts (tops_behind operator x)) }
{
    let tops = behind(alloc, operator, a)?;
    Ok(tops)
}

// The signatures with which lists end.
fn ends(alloc: Global, lists: &[Vec<usize>]) -> Result<Tops, AllocError>
    ensures { IfOk result (λ ts. AreAlike ts (ends_of (lists_of lists.now))) }
{
    let mut tops = Tops::new(alloc);
    for list in lists {
        tops.put_all(last(list))?;
    }
    Ok(tops)
}

// The last signature of a list, as a list of one.
fn last(list: &[usize]) -> &[usize]
    ensures { result.now ≡ end_of list.now }
{
    &list[list.len().saturating_sub(1)..]
}

fn behind(alloc: Global, operator: Operator, a: &BoundingType) -> Result<Tops, AllocError>
    ensures { IfOk result (λ ts. AreAlike ts (tops_behind operator a.now)) }
{
    match operator {
        Operator::Domain => alone(alloc, a),
        _ => Ok(Tops::new(alloc)),
    }
}

fn alone(alloc: Global, a: &BoundingType) -> Result<Tops, AllocError>
    ensures { IfOk result (λ ts. AreAlike ts (alone_in a.now)) }
{
    let tops = all_alone(alloc, a.as_slice())?;
    Ok(tops)
}

// The signatures that stand alone in lists.
fn all_alone(alloc: Global, lists: &[Vec<usize>]) -> Result<Tops, AllocError>
    ensures { IfOk result (λ ts. AreAlike ts (alone_in (lists_of lists.now))) }
{
    let mut tops = Tops::new(alloc);
    for list in lists {
        tops.put_all(single(list))?;
    }
    Ok(tops)
}

// What a list of one has.
fn single(list: &[usize]) -> &[usize]
    ensures { result.now ≡ single list.now }
{
    if list.len() == 1 { list } else { &list[..0] }
}
