// That the definitions of the operators are those of the field: small values, worked out by hand.
ghost use Rattle.std.specs.Prelude.{◌≡◌, IfOk};

use sample_problems::at;
use std::alloc::{AllocError, Global};
use std::process::Abort;
use std::test::Fail;
use tuple_core::{Atom, Name, Tuple, TupleSet};

// The set of the atoms at these places.
fn atoms(alloc: Global, places: &[u16]) -> Result<TupleSet, AllocError>
    ensures { IfOk result (λ s. s.arity ≡ 1) }
{
    let mut set = TupleSet::new(alloc, 1);
    for place in places {
        set.insert(Tuple::single(at(*place)))?;
    }
    Ok(set)
}

// The set of these pairs of places.
fn pairs(alloc: Global, places: &[[u16; 2]]) -> Result<TupleSet, AllocError>
    ensures { IfOk result (λ s. s.arity ≡ 2) }
{
    let mut set = TupleSet::new(alloc, 2);
    for pair in places {
        set.insert(Tuple::of(&[at(pair[0]), at(pair[1])]))?;
    }
    Ok(set)
}

// The set of these triples of places.
fn triples(alloc: Global, places: &[[u16; 3]]) -> Result<TupleSet, AllocError>
    ensures { IfOk result (λ s. s.arity ≡ 3) }
{
    let mut set = TupleSet::new(alloc, 3);
    for triple in places {
        set.insert(Tuple::of(&[at(triple[0]), at(triple[1]), at(triple[2])]))?;
    }
    Ok(set)
}

// An atom of another signature than those at places.
const LATE: Atom = Atom { top: 1, place: 0 };

// The set of these pairs, which are put in one by one, where each is new or not.
fn inserted(
    rt: &impl Abort,
    alloc: Global,
    pairs: &[([Atom; 2], bool)],
) -> Result<TupleSet, AllocError> {
    let mut set = TupleSet::new(alloc, 2);
    for (pair, is_new) in pairs {
        let tuple = Tuple::of(&[pair[0], pair[1]]);
        assert_eq!(*rt; set.insert(tuple)?, *is_new);
    }
    Ok(set)
}

// Whether the set has just these pairs, in this order.
fn lists(set: &TupleSet, pairs: &[[Atom; 2]]) -> bool {
    if set.len() != pairs.len() {
        return false;
    }
    for place in 0..pairs.len() {
        if set.at(place).atoms() != pairs[place].as_slice() {
            return false;
        }
    }
    true
}

fn has_pair(set: &TupleSet, first: Atom, second: Atom) -> bool {
    set.contains(&Tuple::of(&[first, second]))
}

fn is_copied(alloc: Global, set: &TupleSet) -> Result<bool, AllocError> {
    Ok(set.copy(alloc)? == *set)
}

#[test]
fn tuples_stand_once_and_in_order(rt: HostRuntime) -> Result<(), Fail> {
    let pairs = [
        ([LATE, at(0)], true),
        ([at(7), LATE], true),
        ([at(7), at(9)], true),
        ([at(7), LATE], false),
    ];
    let set = inserted(&rt, rt.alloc(), pairs.as_slice())?;
    assert_eq!(rt; (set.len(), set.arity(), set.is_empty()), (3, 2, false));
    assert!(rt; lists(&set, &[[at(7), at(9)], [at(7), LATE], [LATE, at(0)]]));
    assert!(rt; has_pair(&set, at(7), LATE) && !has_pair(&set, at(0), LATE));
    assert!(rt; is_copied(rt.alloc(), &set)?);
    Ok(())
}

// Whether a set is that of the atoms at these places, of these pairs of places, or of these triples.
fn has_atoms(alloc: Global, set: &TupleSet, places: &[u16]) -> Result<bool, AllocError> {
    Ok(*set == atoms(alloc, places)?)
}

fn has_pairs(alloc: Global, set: &TupleSet, places: &[[u16; 2]]) -> Result<bool, AllocError> {
    Ok(*set == pairs(alloc, places)?)
}

fn has_triples(alloc: Global, set: &TupleSet, places: &[[u16; 3]]) -> Result<bool, AllocError> {
    Ok(*set == triples(alloc, places)?)
}

fn is_union(alloc: Global, found: &[u16]) -> Result<bool, AllocError> {
    let left = atoms(alloc, &[3, 1])?;
    let right = atoms(alloc, &[2, 3])?;
    has_atoms(alloc, &left.union(alloc, &right)?, found)
}

fn is_difference(alloc: Global, found: &[u16]) -> Result<bool, AllocError> {
    let left = atoms(alloc, &[3, 1])?;
    let right = atoms(alloc, &[2, 3])?;
    has_atoms(alloc, &left.minus(alloc, &right)?, found)
}

fn is_intersection(alloc: Global, found: &[u16]) -> Result<bool, AllocError> {
    let left = atoms(alloc, &[3, 1])?;
    let right = atoms(alloc, &[2, 3])?;
    has_atoms(alloc, &left.meet(alloc, &right)?, found)
}

fn is_subset(alloc: Global, left: &[u16], right: &[u16]) -> Result<bool, AllocError> {
    let left = atoms(alloc, left)?;
    let right = atoms(alloc, right)?;
    Ok(left.is_subset(&right))
}

#[test]
fn union_minus_and_meet(rt: HostRuntime) -> Result<(), Fail> {
    let alloc = rt.alloc();
    assert!(rt; is_union(alloc, &[1, 2, 3])?);
    assert!(rt; is_difference(alloc, &[1])?);
    assert!(rt; is_intersection(alloc, &[3])?);
    Ok(())
}

#[test]
fn subsets(rt: HostRuntime) -> Result<(), Fail> {
    assert!(rt; is_subset(rt.alloc(), &[3], &[3, 1])?);
    assert!(rt; !is_subset(rt.alloc(), &[3, 1], &[2, 3])?);
    Ok(())
}

// Three triples.
const ADDRESSES: [[u16; 3]; 3] = [[0, 1, 2], [0, 3, 4], [5, 1, 4]];

#[test]
fn joins_with_atoms_on_the_right(rt: HostRuntime) -> Result<(), Fail> {
    let addresses = triples(rt.alloc(), &ADDRESSES)?;
    let fourth = atoms(rt.alloc(), &[4])?;
    let found = addresses.join(rt.alloc(), &fourth)?;
    assert!(rt; has_pairs(rt.alloc(), &found, &[[0, 3], [5, 1]])?);
    Ok(())
}

#[test]
fn joins_with_atoms_on_the_left(rt: HostRuntime) -> Result<(), Fail> {
    let addresses = triples(rt.alloc(), &ADDRESSES)?;
    let book = atoms(rt.alloc(), &[0])?;
    let found = book.join(rt.alloc(), &addresses)?;
    assert!(rt; has_pairs(rt.alloc(), &found, &[[1, 2], [3, 4]])?);
    Ok(())
}

#[test]
fn joins_with_pairs(rt: HostRuntime) -> Result<(), Fail> {
    let addresses = triples(rt.alloc(), &ADDRESSES)?;
    let next = pairs(rt.alloc(), &[[4, 7], [4, 8]])?;
    let found = addresses.join(rt.alloc(), &next)?;
    let all = [[0, 3, 7], [0, 3, 8], [5, 1, 7], [5, 1, 8]];
    assert!(rt; has_triples(rt.alloc(), &found, all.as_slice())?);
    Ok(())
}

#[test]
fn products_of_atoms_and_pairs(rt: HostRuntime) -> Result<(), Fail> {
    let one = atoms(rt.alloc(), &[9, 8])?;
    let two = pairs(rt.alloc(), &[[1, 2]])?;
    let found = one.product(rt.alloc(), &two)?;
    assert!(rt; has_triples(rt.alloc(), &found, &[[8, 1, 2], [9, 1, 2]])?);
    Ok(())
}

#[test]
fn products_of_pairs_and_atoms(rt: HostRuntime) -> Result<(), Fail> {
    let one = atoms(rt.alloc(), &[9, 8])?;
    let two = pairs(rt.alloc(), &[[1, 2]])?;
    let found = two.product(rt.alloc(), &one)?;
    assert!(rt; has_triples(rt.alloc(), &found, &[[1, 2, 8], [1, 2, 9]])?);
    Ok(())
}

#[test]
fn turned_pairs(rt: HostRuntime) -> Result<(), Fail> {
    let two = pairs(rt.alloc(), &[[1, 2]])?;
    let found = two.transpose(rt.alloc())?;
    assert!(rt; has_pairs(rt.alloc(), &found, &[[2, 1]])?);
    Ok(())
}

// All pairs of three places.
const ALL_PAIRS: [[u16; 2]; 9] = [
    [0, 0],
    [0, 1],
    [0, 2],
    [1, 0],
    [1, 1],
    [1, 2],
    [2, 0],
    [2, 1],
    [2, 2],
];

// Whether the closure of the one set of pairs is the other.
fn is_closure(alloc: Global, from: &[[u16; 2]], to: &[[u16; 2]]) -> Result<bool, AllocError> {
    let from = pairs(alloc, from)?;
    has_pairs(alloc, &from.closure(alloc)?, to)
}

// Whether the pairs of these places are these.
fn are_all_pairs(alloc: Global, places: &[u16], to: &[[u16; 2]]) -> Result<bool, AllocError> {
    let set = atoms(alloc, places)?;
    has_pairs(alloc, &set.product(alloc, &set)?, to)
}

#[test]
fn a_closure_of_a_path(rt: HostRuntime) -> Result<(), Fail> {
    let path = [[2, 3], [0, 1], [1, 2]];
    let ahead = [[0, 1], [0, 2], [0, 3], [1, 2], [1, 3], [2, 3]];
    assert!(rt; is_closure(rt.alloc(), path.as_slice(), ahead.as_slice())?);
    Ok(())
}

#[test]
fn a_closure_of_a_cycle(rt: HostRuntime) -> Result<(), Fail> {
    let cycle = [[0, 1], [1, 2], [2, 0]];
    assert!(rt; is_closure(rt.alloc(), cycle.as_slice(), &ALL_PAIRS)?);
    assert!(rt; are_all_pairs(rt.alloc(), &[0, 1, 2], &ALL_PAIRS)?);
    Ok(())
}

// Some pairs.
const MAP: [[u16; 2]; 4] = [[0, 1], [0, 2], [1, 2], [3, 0]];

#[test]
fn an_override(rt: HostRuntime) -> Result<(), Fail> {
    let map = pairs(rt.alloc(), &MAP)?;
    let change = pairs(rt.alloc(), &[[0, 3], [4, 4]])?;
    let found = map.over(rt.alloc(), &change)?;
    let changed = [[0, 3], [1, 2], [3, 0], [4, 4]];
    assert!(rt; has_pairs(rt.alloc(), &found, changed.as_slice())?);
    Ok(())
}

#[test]
fn a_restricted_domain(rt: HostRuntime) -> Result<(), Fail> {
    let map = pairs(rt.alloc(), &MAP)?;
    let ends = atoms(rt.alloc(), &[0, 2])?;
    let found = map.dom(rt.alloc(), &ends)?;
    assert!(rt; has_pairs(rt.alloc(), &found, &[[0, 1], [0, 2]])?);
    Ok(())
}

#[test]
fn a_restricted_range(rt: HostRuntime) -> Result<(), Fail> {
    let map = pairs(rt.alloc(), &MAP)?;
    let ends = atoms(rt.alloc(), &[0, 2])?;
    let found = map.ran(rt.alloc(), &ends)?;
    assert!(rt; has_pairs(rt.alloc(), &found, &[[0, 2], [1, 2], [3, 0]])?);
    Ok(())
}

#[test]
fn first_atoms(rt: HostRuntime) -> Result<(), Fail> {
    let map = pairs(rt.alloc(), &MAP)?;
    assert!(rt; map.has_first(at(3)) && !map.has_first(at(2)));
    Ok(())
}

// Whether the one set of triples is the other with these two atoms exchanged.
fn are_exchanged(
    alloc: Global,
    from: &[[u16; 3]],
    atoms: (Atom, Atom),
    to: &[[u16; 3]],
) -> Result<bool, AllocError> {
    let (first, second) = atoms;
    let set = triples(alloc, from)?;
    has_triples(alloc, &set.swapped(alloc, first, second)?, to)
}

#[test]
fn two_atoms_are_exchanged_everywhere(rt: HostRuntime) -> Result<(), Fail> {
    let set = [[0, 1, 2], [1, 1, 3]];
    let other = [[0, 0, 3], [1, 0, 2]];
    let elsewhere = Atom { top: 1, place: 1 };
    assert!(rt; are_exchanged(rt.alloc(), set.as_slice(), (at(0), at(1)), other.as_slice())?);
    assert!(rt;
        are_exchanged(
            rt.alloc(),
            set.as_slice(),
            (at(9), elsewhere),
            set.as_slice()
        )?
    );
    Ok(())
}

// Whether a name and its copy have this text.
fn keeps_text(alloc: Global, text: &str) -> Result<bool, AllocError> {
    let name = Name::of(alloc, text)?;
    let copy = name.copy(alloc)?;
    Ok(name.text() == text && copy == name)
}

fn is_before(alloc: Global, text: &str, other: &str) -> Result<bool, AllocError> {
    Ok(Name::of(alloc, text)? < Name::of(alloc, other)?)
}

#[test]
fn names_keep_their_text(rt: HostRuntime) -> Result<(), Fail> {
    assert!(rt; keeps_text(rt.alloc(), "Straße$0")?);
    assert!(rt; keeps_text(rt.alloc(), "")?);
    assert!(rt; is_before(rt.alloc(), "Strand", "Straße$0")?);
    Ok(())
}
