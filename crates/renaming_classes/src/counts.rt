// How many renamings a problem has.
ghost use Rattle.std.specs.Prelude.{◌≡◌, ◌*◌, ◌+◌, ◌^◌, ◌<◌, ◌≤◌, ℕ, if◌then◌else◌, MatchOption};
ghost use Rattle.std.specs.List.{count_by};
ghost use Rattle.renaming_classes.specs.Counts.{factorial, is_of, orders, IsNumberOfRenamings};

use rel_formula::Problem;
use tuple_core::Tuple;

/// How many renamings a problem has, if there are at most 40,320: the factorials of the numbers of atoms of each top-level
/// signature, multiplied. `None` where there are more.
pub fn renamings(problem: &Problem) -> Option<u32>
    ensures { MatchOption result ((n : ℕ) × IsNumberOfRenamings problem.now n × (40320 < n)) (λ n. IsNumberOfRenamings problem.now n × (n ≤ 40320)) }
{
    orders(problem.atoms().rows(), problem.tops().len())
}

// In how many ways the atoms of the signatures below this one can change places.
fn orders(atoms: &[Tuple], tops: usize) -> Option<u32>
    ensures { MatchOption result (40320 < orders atoms.now tops) (λ n. (n ≡ orders atoms.now tops) × (n ≤ 40320)) }
{
    let mut product = 1;
    for top in 0..tops {
        product = times_factorial(product, count(atoms, top))?;
    }
    Some(product)
}

// How many of these tuples are of an atom of the signature.
fn count(atoms: &[Tuple], top: usize) -> usize
    ensures { result ≡ count_by (is_of top) atoms.now }
{
    let mut found = 0;
    for tuple in atoms {
        found = with_one(found, is_of(tuple, top));
    }
    found
}

// Whether the tuple's first atom is of the signature.
fn is_of(tuple: &Tuple, top: usize) -> bool
    ensures { result ≡ is_of top tuple.now }
{
    tuple.first().top as usize == top
}

// A number, and one more where something more is found.
fn with_one(found: usize, more: bool) -> usize
    requires { found + 1 < 2 ^ 64 }
    ensures { result ≡ (if more then found + 1 else found) }
{
    if more { found + 1 } else { found }
}

// The product of a number and a factorial, if it is at most 40,320.
fn times_factorial(start: u32, count: usize) -> Option<u32>
    requires some { 1 ≤ start }
    requires few { start ≤ 40320 }
    ensures { MatchOption result (40320 < start * factorial count) (λ n. (n ≡ start * factorial count) × (1 ≤ n) × (n ≤ 40320)) }
{
    let mut product = start;
    for factor in 0..count {
        product = times(product, factor)?;
    }
    Some(product)
}

// The product of the first number and the one after the second, if it is at most 40,320.
fn times(product: u32, factor: usize) -> Option<u32>
    requires some { 1 ≤ product }
    requires few { product ≤ 40320 }
    ensures { MatchOption result (40320 < product * (factor + 1)) (λ n. (n ≡ product * (factor + 1)) × (1 ≤ n) × (n ≤ 40320)) }
{
    if factor >= 40_320 {
        return None;
    }
    let next = product * (factor as u32 + 1);
    if next > 40_320 { None } else { Some(next) }
}
