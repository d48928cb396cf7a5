// Steps with a mark beside each, so that most of those that don't contain a clause are passed by unseen.
ghost use Rattle.std.specs.Prelude.{◌≡◌, ◌+◌, ◌≤◌, ◌<◌, ◌^◌, ◌++◌, ◌∷◌, [], ℕ, All, ◌↔◌, IsTrue, MatchBool, OnOk, OnErr, length, slice_index_or};
ghost use Rattle.cnf_core.specs.declared.literal.Lit.{Lit};
ghost use Rattle.cnf_core.specs.Literal.{IsClause};
ghost use Rattle.refutation_check.specs.Chain.{Subsumes};
ghost use Rattle.sat_core.specs.Kept.{IsContainedIn};
ghost use Rattle.sat_core.specs.Marked.{AreMarks, bit_of, mark_of};

use cnf_core::{Clause, Lit};
use refutation_check::{Log, Step};
use std::alloc::{AllocError, Global};
use std::marker::Model;

/// A log with a mark of each step's clause beside it: 64 bits, which tell of which variables its negative literals may be. Contracts see
/// the list of the steps.
#[derive(Debug, Drop)]
pub struct MarkedLog {
    log: Log,
    marks: Vec<u64>,
}

impl Model for MarkedLog {
    ghost use Rattle.std.specs.Prelude.{List};
    ghost use Rattle.refutation_check.specs.declared.log.Step.{Step};

    ghost Value = { List Step };

    ghost use Rattle.sat_core.specs.Marked.{AreMarks};

    ghost view = { λ m. m.log };

    ghost invariant = { λ m. AreMarks m.marks.items m.log };
}

impl MarkedLog {
    /// A log with no steps.
    pub fn new(alloc: Global) -> MarkedLog
        ensures { result ≡ [] }
    {
        MarkedLog {
            log: Log::new(alloc),
            marks: Vec::new(alloc),
        }
    }

    /// Puts a step at the end. After an error the log is as before.
    pub fn push(&mut self, step: Step) -> Result<(), AllocError>
        requires room { length self.old + 1 < 2 ^ 30 }
        ensures ok { OnOk result (self.new ≡ self.old ++ step ∷ []) }
        ensures err { OnErr result (self.new ≡ self.old) }
    {
        let mark = mark_of(step.clause.lits());
        // A mark is left behind where its step found no memory.
        self.marks.truncate(self.log.steps().len());
        self.marks.push(mark)?;
        self.log.push(step)?;
        Ok(())
    }

    /// The steps, in order.
    pub fn log(&self) -> &Log
        ensures { result.now ≡ self.now }
    {
        &self.log
    }

    /// Whether one of the steps contains the clause.
    pub fn is_contained(&self, clause: &Clause) -> bool
        ensures { MatchBool result (IsContainedIn clause.now self.now) (All (λ s. ¬ Subsumes clause.now s.clause) self.now) }
    {
        is_contained(clause, self.log.steps(), self.marks.as_slice())
    }
}

// The bits of the literals.
fn mark_of(lits: &[Lit]) -> u64
    ensures { result ≡ mark_of lits.now }
{
    let mut mark = 0;
    for lit in lits {
        mark |= bit_of(lit);
    }
    mark
}

// The bit of a literal. What is blocked is the absence of a scenario, which is negative throughout; the steps' positive literals would
// but fill their marks.
fn bit_of(lit: &Lit) -> u64
    ensures { result ≡ bit_of lit.now }
{
    if lit.positive {
        return 0;
    }
    1 << (lit.var % 64)
}

// Whether one of the steps contains the clause. The marks begin with theirs.
fn is_contained(clause: &Clause, steps: &[Step], marks: &[u64]) -> bool
    requires { AreMarks marks.now steps.now }
    ensures { MatchBool result (IsContainedIn clause.now steps.now) (All (λ s. ¬ Subsumes clause.now s.clause) steps.now) }
{
    let wanted = mark_of(clause.lits());
    for (place, step) in steps.iter().enumerate() {
        if contains(step, marks[place], clause, wanted) {
            return true;
        }
    }
    false
}

// Whether the step contains the clause. Both have their marks: where one of the clause's bits is none of the step's, it doesn't.
fn contains(step: &Step, mark: u64, clause: &Clause, wanted: u64) -> bool
    requires mark { mark ≡ mark_of step.now.clause }
    requires wanted { wanted ≡ mark_of clause.now }
    ensures { IsTrue result ↔ Subsumes clause.now step.now.clause }
{
    if mark | wanted != mark {
        return false;
    }
    has_each(step.clause.lits(), clause.lits())
}

// Whether each literal of the second clause is among those of the first one. Both are in the order of their variables.
fn has_each(lits: &[Lit], others: &[Lit]) -> bool
    requires lits { IsClause lits.now }
    requires others { IsClause others.now }
    ensures { IsTrue result ↔ Subsumes others.now lits.now }
{
    let mut at = 0;
    for other in others {
        at = place_of(lits, at, other.var);
        if at == lits.len() || !is_same(&lits[at], other) {
            return false;
        }
    }
    true
}

// The first place from this one on whose variable isn't below this one, or that behind the last.
fn place_of(lits: &[Lit], from: usize, var: u32) -> usize
    requires { from ≤ length lits.now }
    ensures within { result ≤ length lits.now }
    ensures later { from ≤ result }
    ensures below { (i : ℕ) (d : Lit) → from ≤ i → i < result → (slice_index_or lits.now i d).var < var }
    ensures here { (d : Lit) → result < length lits.now → var ≤ (slice_index_or lits.now result d).var }
{
    let mut at = from;
    'passing: while at < lits.len() && lits[at].var < var {
        at += 1;
    }
    at
}

fn is_same(first: &Lit, second: &Lit) -> bool
    ensures { IsTrue result ↔ (first.now ≡ second.now) }
{
    first.var == second.var && first.positive == second.positive
}
