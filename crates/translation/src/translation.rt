// A problem and its clauses.
ghost use Rattle.std.specs.Prelude.{◌≡◌, ◌<◌, ◌≤◌, ◌^◌, length, map, slice_get, Some, IfOk};
ghost use Rattle.rel_formula.specs.Bounds.{cells_of};
ghost use Rattle.rel_formula.specs.Renaming.{IsSymmetric};
ghost use Rattle.rel_terms.specs.Terms.{IsTranslatable};
ghost use Rattle.swap_symmetry.specs.Images.{AreImages};
ghost use Rattle.translation_rules.specs.Translation.{SwapClauses};
ghost use Rattle.translation.specs.Numbered.{pair_of, highest_var, vars_of};
ghost use Rattle.translation.specs.Kept.{IsTranslation};

use crate::swaps::clauses_of_pairs;
use circuit_cnf::clauses_of;
use cnf_core::Cnf;
use rel_formula::Problem;
use rel_translate::circuit_of;
use std::alloc::{AllocError, Global};
use std::marker::Model;
use swap_symmetry::{SwapImages, neighbours};
use tuple_core::Atom;

/// A symmetric problem, the clauses that its instances satisfy, for each swap of neighbouring atoms the clauses which say
/// that it makes nothing earlier, and the images of the cells under these swaps.
///
/// The variable of cell n is n + 1. Each swap has fresh variables of its own, behind those of the problem's clauses.
pub struct Translation {
    problem: Problem,
    cnf: Cnf,
    pairs: Vec<(Atom, Atom)>,
    swaps: Vec<Cnf>,
    images: SwapImages,
}

// By hand, so that a caller's proof has one step wherever one is dropped.
impl Drop for Translation {
    fn drop(self) {
        let Translation {
            problem: _,
            cnf: _,
            pairs: _,
            swaps: _,
            images: _,
        } = self;
    }
}

impl Model for Translation {
    ghost use Rattle.std.specs.Coded.{codes};
    ghost use Rattle.rel_formula.specs.Code.{formula_code};
    ghost use Rattle.std.specs.Prelude.{◌≡◌, length};
    ghost use Rattle.swap_symmetry.specs.Images.{AreImages};
    ghost use Rattle.translation_rules.specs.Translation.{Translated};
    ghost use Rattle.translation.specs.Numbered.{swaps_of};
    ghost use Rattle.translation.specs.Kept.{IsTranslation};

    ghost Value = { Translated };

    ghost coded = { Prim.hlevel (codes, formula_code) };

    ghost view = { λ t. record { problem = t.problem; cnf = t.cnf; swaps = swaps_of t.pairs.items t.swaps.items } };

    ghost invariant = { λ t. (length t.swaps.items ≡ length t.pairs.items) × IsTranslation (record { problem = t.problem; cnf = t.cnf; swaps = swaps_of t.pairs.items t.swaps.items }) × AreImages t.problem t.images };
}

impl Translation {
    /// Translates a symmetric problem that has at most 64 atoms, top-level signatures with disjoint upper sets, and at most
    /// 262,144 terms. The error comes only for want of memory.
    pub fn build(alloc: Global, problem: Problem) -> Result<Translation, AllocError>
        requires translatable { IsTranslatable problem }
        requires symmetric { IsSymmetric problem }
        ensures { IfOk result (λ t. t.problem ≡ problem) }
    {
        let pairs = neighbours(alloc, &problem)?;
        let cnf = {
            let made = circuit_of(alloc, &problem)?;
            clauses_of(alloc, &made.circuit, made.node)?
        };
        let swaps = clauses_of_pairs(alloc, &problem, cnf.vars(), pairs.as_slice())?;
        let images = SwapImages::of(alloc, &problem)?;
        Ok(Translation {
            problem,
            cnf,
            pairs,
            swaps,
            images,
        })
    }

    /// The problem.
    pub fn problem(&self) -> &Problem
        ensures value { result.now ≡ self.now.problem }
        ensures well { IsTranslation self.now }
    {
        &self.problem
    }

    /// The clauses that the problem's instances satisfy.
    pub fn cnf(&self) -> &Cnf
        ensures { result.now ≡ self.now.cnf }
    {
        &self.cnf
    }

    /// The pairs of neighbouring atoms, in order of atoms.
    pub fn pairs(&self) -> &[(Atom, Atom)]
        ensures { result.now ≡ map pair_of self.now.swaps }
    {
        self.pairs.as_slice()
    }

    /// The clauses of the swap of a pair, by its place among them.
    pub fn swap(&self, place: u32) -> &Cnf
        requires { place < length self.now.swaps }
        ensures { (x : SwapClauses) → slice_get self.now.swaps place ≡ Some x → result.now ≡ x.cnf }
    {
        &self.swaps[place as usize]
    }

    /// The images of the problem's cells under the swaps.
    pub fn images(&self) -> &SwapImages
        ensures { AreImages self.now.problem result.now }
    {
        &self.images
    }

    /// The highest variable of all these clauses: of the problem's and of those of the swaps.
    pub fn vars(&self) -> u32
        ensures highest { result ≡ vars_of self.now }
        ensures enough { self.now.cnf.vars ≤ result }
        ensures few { result < 2 ^ 31 }
    {
        highest_of(self.cnf.vars(), self.swaps.as_slice())
    }
}

// The highest of this variable and of those that the formulas are over.
fn highest_of(var: u32, formulas: &[Cnf]) -> u32
    requires { var < 2 ^ 31 }
    ensures highest { result ≡ highest_var var formulas.now }
    ensures few { result < 2 ^ 31 }
{
    let mut highest = var;
    for formula in formulas {
        highest = highest.max(formula.vars());
    }
    highest
}
