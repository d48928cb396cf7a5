// Pairs of neighbouring atoms.
ghost use Rattle.std.specs.Prelude.{◌≡◌, ◌↔◌, AllPairs, Contains, IfOk};
ghost use Rattle.std.specs.declared.cmp.Ordering.TheVariants.{Less};
ghost use Rattle.tuple_core.specs.declared.atom.Atom.{Atom as AtomRecord};
ghost use Rattle.tuple_core.specs.Order.{atom_cmp};
ghost use Rattle.swap_symmetry.specs.Swaps.{AreNeighbours};

use rel_formula::Problem;
use std::alloc::{AllocError, Global};
use tuple_core::Atom;

/// All pairs of neighbours: two atoms of one top-level signature, the first before the second, with no atom between them.
/// They come in the order of their first atoms. The error comes only for want of memory.
pub fn neighbours(alloc: Global, problem: &Problem) -> Result<Vec<(Atom, Atom)>, AllocError>
    ensures exactly { IfOk result (λ pairs. (a b : AtomRecord) → Contains pairs.items (a, b) ↔ AreNeighbours problem.now a b) }
    ensures rising { IfOk result (λ pairs. AllPairs (λ x y. atom_cmp x.0 y.0 ≡ Less) pairs.items) }
{
    let atoms = problem.atoms().rows();
    let mut pairs = Vec::new(alloc);
    for place in 1..atoms.len() {
        let first = atoms[place - 1].first();
        let second = atoms[place].first();
        if first.top == second.top {
            pairs.push((first, second))?;
        }
    }
    Ok(pairs)
}
