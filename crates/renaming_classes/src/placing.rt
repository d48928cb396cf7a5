// A search through the renamings of a scenario, which places one atom after the other.
ghost use Rattle.std.specs.Prelude.{◌≡◌, ◌+◌, ◌≤◌, ◌<◌, ◌⊎◌, ℕ, [], length, take, slice_index_or, None, Contains, IfOk};
ghost use Rattle.std.specs.Option.{IfSome};
ghost use Rattle.tuple_core.specs.Swap.{swap_atoms};
ghost use Rattle.rel_formula.specs.Bounds.{IsProblem, IsAtomOf};
ghost use Rattle.rel_formula.specs.Instance.{AreCells, IsScenario};
ghost use Rattle.rel_formula.specs.Renaming.{IsImage, IsSymmetric};
ghost use Rattle.swap_symmetry.specs.Order.{IsEarlier};
ghost use Rattle.renaming_classes.specs.Least.{IsLeastRenamingOf};
ghost use Rattle.renaming_classes.specs.Keeping.{AreMovable, NoneKeeping, NonePutting};
ghost use Rattle.renaming_classes.specs.Orbits.{AreOrbits};
ghost use Rattle.renaming_classes.specs.Placing.{IsPlacing, IsSearched, IsNoLater};

use crate::orbits::Orbits;
use rel_formula::{Problem, Scenario};
use std::alloc::{AllocError, Global};
use swap_symmetry::{earlier, settle};
use tuple_core::Atom;

/// The atoms of a problem that renamings can move, and for each number of them what the renamings that keep so many take to
/// each other.
#[derive(Drop)]
pub(crate) struct Placing {
    atoms: Vec<Atom>,
    orbits: Vec<Orbits>,
}

impl Placing {
    /// The atoms of the problem, and their orbits.
    pub(crate) fn of(alloc: Global, problem: &Problem) -> Result<Placing, AllocError>
        ensures { IfOk result (λ placing. IsPlacing problem.now placing.atoms.items placing.orbits.items) }
    {
        let atoms = movable(alloc, problem)?;
        let orbits = all_orbits(alloc, problem, &atoms)?;
        Ok(Placing { atoms, orbits })
    }

    /// The least renaming of the scenario.
    pub(crate) fn least(
        &self,
        alloc: Global,
        problem: &Problem,
        scenario: &Scenario,
    ) -> Result<Scenario, AllocError>
        requires placing { IsPlacing problem.now self.now.atoms.items self.now.orbits.items }
        requires symmetric { IsSymmetric problem.now }
        requires cells { AreCells problem.now scenario.now }
        ensures { IfOk result (IsLeastRenamingOf problem.now scenario.now) }
    {
        let _ = scenario.numbers(); // for the proof
        let mut best = scenario.copy(alloc)?;
        settle(problem, &mut best);
        self.visit(alloc, problem, 0, scenario, &mut best)?;
        Ok(best)
    }

    // Looks through the renamings that keep the placed atoms, unless none of them can be earlier than the best.
    #[cycle(placing)]
    fn visit(
        &self,
        alloc: Global,
        problem: &Problem,
        placed: usize,
        scenario: &Scenario,
        best: &mut Scenario,
    ) -> Result<(), AllocError>
        requires placing { IsPlacing problem.now self.now.atoms.items self.now.orbits.items }
        requires placed { placed ≤ length self.now.atoms.items }
        requires searched { IsSearched problem.now scenario.now best.old }
        ensures no_later { IfOk result (λ _. IsNoLater problem.now best.old best.new) }
        ensures least { IfOk result (λ _. NoneKeeping problem.now (take placed self.now.atoms.items) scenario.now best.new) }
    {
        if self.orbits[placed].rules_out(alloc, problem, scenario, best)? {
            return Ok(());
        }
        self.place(alloc, problem, placed, scenario, best)
    }

    // Puts each atom that isn't placed in the place of the first such.
    #[cycle(placing)]
    fn place(
        &self,
        alloc: Global,
        problem: &Problem,
        placed: usize,
        scenario: &Scenario,
        best: &mut Scenario,
    ) -> Result<(), AllocError>
        requires placing { IsPlacing problem.now self.now.atoms.items self.now.orbits.items }
        requires placed { placed ≤ length self.now.atoms.items }
        requires searched { IsSearched problem.now scenario.now best.old }
        ensures no_later { IfOk result (λ _. IsNoLater problem.now best.old best.new) }
        ensures least { IfOk result (λ _. NoneKeeping problem.now (take placed self.now.atoms.items) scenario.now best.new) }
    {
        if placed == self.atoms.len() {
            return keep_earlier(alloc, problem, scenario, best);
        }
        self.visit(alloc, problem, placed + 1, scenario, best)?;
        for other in placed + 1..self.atoms.len() {
            self.put(alloc, problem, placed, self.atoms[other], scenario, best)?;
        }
        Ok(())
    }

    // Puts another atom in the place of the first that isn't placed, unless this makes no difference.
    #[cycle(placing)]
    fn put(
        &self,
        alloc: Global,
        problem: &Problem,
        placed: usize,
        other: Atom,
        scenario: &Scenario,
        best: &mut Scenario,
    ) -> Result<(), AllocError>
        requires placing { IsPlacing problem.now self.now.atoms.items self.now.orbits.items }
        requires placed { placed < length self.now.atoms.items }
        requires searched { IsSearched problem.now scenario.now best.old }
        requires other { Contains self.now.atoms.items other }
        requires same { NoneKeeping problem.now (take (placed + 1) self.now.atoms.items) scenario.now best.old }
        ensures no_later { IfOk result (λ _. IsNoLater problem.now best.old best.new) }
        ensures least { IfOk result (λ _. NonePutting problem.now (take placed self.now.atoms.items) other (slice_index_or self.now.atoms.items placed other) scenario.now best.new) }
    {
        match with_swap(alloc, problem, self.atoms[placed], other, scenario)? {
            Some(image) => self.visit(alloc, problem, placed + 1, &image, best),
            None => Ok(()),
        }
    }
}

// The atoms that renamings can move.
fn movable(alloc: Global, problem: &Problem) -> Result<Vec<Atom>, AllocError>
    ensures well { IsProblem problem.now }
    ensures atoms { IfOk result (λ atoms. AreMovable problem.now atoms.items) }
{
    let mut atoms = Vec::new(alloc);
    for row in problem.atoms().rows() {
        atoms.push(row.first())?;
    }
    Ok(atoms)
}

// What goes together once no atom is placed, one is, and so on.
fn all_orbits(alloc: Global, problem: &Problem, atoms: &[Atom]) -> Result<Vec<Orbits>, AllocError>
    ensures long { IfOk result (λ orbits. length orbits.items ≡ length atoms.now + 1) }
    ensures each { IfOk result (λ orbits. (m : ℕ) → m ≤ length atoms.now → AreOrbits problem.now (take m atoms.now) (slice_index_or orbits.items m [])) }
{
    let mut orbits = Vec::new(alloc);
    for placed in 0..atoms.len() {
        orbits.push(Orbits::of(alloc, problem, &atoms[..placed], &atoms[placed..])?)?;
    }
    orbits.push(Orbits::of(alloc, problem, atoms, &[])?)?;
    Ok(orbits)
}

// The scenario with the two atoms swapped, where they are of one signature and the swap makes a difference.
fn with_swap(
    alloc: Global,
    problem: &Problem,
    first: Atom,
    second: Atom,
    scenario: &Scenario,
) -> Result<Option<Scenario>, AllocError>
    requires symmetric { IsSymmetric problem.now }
    requires cells { AreCells problem.now scenario.now }
    requires first { IsAtomOf problem.now first }
    requires second { IsAtomOf problem.now second }
    ensures some { IfOk result (λ found. IfSome found (λ image. (first.top ≡ second.top) × IsScenario problem.now image × IsImage problem.now (swap_atoms first second) scenario.now image)) }
    ensures none { IfOk result (λ found. found ≡ None → first.top ≡ second.top → IsImage problem.now (swap_atoms first second) scenario.now scenario.now) }
{
    if first.top != second.top {
        return Ok(None);
    }
    let mut image = scenario.copy(alloc)?;
    image.swap_atoms(problem, first, second);
    if image.numbers() == scenario.numbers() {
        return Ok(None);
    }
    Ok(Some(image))
}

// The earlier one of the two.
fn keep_earlier(
    alloc: Global,
    problem: &Problem,
    scenario: &Scenario,
    best: &mut Scenario,
) -> Result<(), AllocError>
    requires { AreCells problem.now scenario.now }
    ensures { IfOk result (λ _. ((best.new ≡ scenario.now) × IsEarlier scenario.now best.old) ⊎ ((best.new ≡ best.old) × (IsEarlier scenario.now best.old → ⊥))) }
{
    if earlier(problem, scenario, best) {
        *best = scenario.copy(alloc)?;
    }
    Ok(())
}
