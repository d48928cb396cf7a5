// The clauses of each swap.
ghost use Rattle.std.specs.Prelude.{◌≡◌, ◌<◌, ◌≤◌, ◌^◌, length, IfOk};
ghost use Rattle.rel_formula.specs.Bounds.{cells_of};
ghost use Rattle.translation.specs.Numbered.{swaps_of, AreNumbered};

use crate::swap_clauses::swap_clauses_of;
use cnf_core::Cnf;
use rel_formula::Problem;
use std::alloc::{AllocError, Global};
use tuple_core::Atom;

/// The clauses of the swap of each of these pairs, over variables of its own behind this one.
pub(crate) fn clauses_of_pairs(
    alloc: Global,
    problem: &Problem,
    last: u32,
    pairs: &[(Atom, Atom)],
) -> Result<Vec<Cnf>, AllocError>
    requires above { length (cells_of problem.now) ≤ last }
    requires room { last < 2 ^ 29 }
    requires pairs { length pairs.now ≤ 64 }
    ensures count { IfOk result (λ cnfs. length cnfs.items ≡ length pairs.now) }
    ensures numbered { IfOk result (λ cnfs. AreNumbered problem.now last (swaps_of pairs.now cnfs.items)) }
{
    let _ = problem.cells(); // for the proof
    let mut cnfs = Vec::new(alloc);
    let mut behind = last;
    for pair in pairs {
        let cnf = swap_clauses_of(alloc, problem, behind + 1, pair.0, pair.1)?;
        behind = cnf.vars();
        cnfs.push(cnf)?;
    }
    Ok(cnfs)
}
