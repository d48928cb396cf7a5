// To which level a search goes back.
ghost use Rattle.std.specs.Prelude.{◌≡◌, ◌+◌, ◌≤◌, ◌<◌, ◌⊎◌, ℕ, length, max, min, slice_index_or};
ghost use Rattle.cnf_core.specs.Literal.{HasVarsUpTo, IsClause};
ghost use Rattle.unit_propagation.specs.declared.assignment_trail.assigned.Assigned.{Assigned};
ghost use Rattle.unit_propagation.specs.Assignments.Trail.{level_of};
ghost use Rattle.sat_trail.specs.Levels.{IsFrom, IsHighestBelow, IsHighestBelowTwo};

use cnf_core::Lit;
use unit_propagation::assignment_trail::Assignment;
use unit_propagation::clause_store::code_of;

// The higher of two levels, where the second one is below the bound.
fn raised(highest: u32, level: u32, below: u32) -> u32
    ensures at_least { highest ≤ result }
    ensures reaches { level < below → level ≤ result }
    ensures either { (result ≡ highest) ⊎ ((result ≡ level) × (level < below)) }
{
    if level <= highest {
        return highest;
    }
    if level < below {
        return level;
    }
    highest
}

/// The highest of the literals' levels that are below the bound, or 0.
pub(crate) fn highest_below(now: &Assignment, lits: &[Lit], below: u32) -> u32
    requires { HasVarsUpTo now.now.vars lits.now }
    ensures { IsHighestBelow now.now.assigned lits.now below result }
{
    let _ = now.vars(); // for the proof
    let mut highest = 0;
    for lit in lits {
        let level = now.level_of(code_of(*lit));
        highest = raised(highest, level, below);
    }
    highest
}

// The two highest of some levels, where one more comes to them.
fn two_highest(highest: (u32, u32), level: u32) -> (u32, u32)
    ensures first { result.0 ≡ max highest.0 level }
    ensures second { result.1 ≡ max highest.1 (min highest.0 level) }
{
    (highest.0.max(level), highest.1.max(highest.0.min(level)))
}

// The level of the literal's variable; or where it is open `next`, which is above each level.
fn level_or_next(now: &Assignment, lit: Lit, next: u32) -> u32
    requires var { lit.var ≤ now.now.vars }
    requires above { (i : ℕ) (d : Assigned) → i < length now.now.assigned → (slice_index_or now.now.assigned i d).level < next }
    ensures from { IsFrom now.now.assigned result lit }
    ensures within { result ≤ next }
    ensures highest { (level : ℕ) → level ≤ next → IsFrom now.now.assigned level lit → level ≤ result }
{
    let _ = now.vars(); // for the proof
    let code = code_of(lit);
    if now.value(code).is_none() {
        return next;
    }
    now.level_of(code)
}

/// The highest level at which two of the clause's literals are open, or 0. `next` is the level of the next decision.
pub(crate) fn level_below_two(now: &Assignment, lits: &[Lit], next: u32) -> u32
    requires vars { HasVarsUpTo now.now.vars lits.now }
    requires clause { IsClause lits.now }
    requires next { next ≡ level_of now.now.assigned + 1 }
    requires above { (i : ℕ) (d : Assigned) → i < length now.now.assigned → (slice_index_or now.now.assigned i d).level < next }
    ensures { IsHighestBelowTwo now.now.assigned lits.now result }
{
    let mut highest = (0, 0);
    for lit in lits {
        let level = level_or_next(now, *lit, next);
        highest = two_highest(highest, level);
    }
    highest.1.saturating_sub(1)
}
