// Laws of the definitions: each is the contract of a function that does nothing.
ghost use Rattle.std.specs.Prelude.{ℕ, List, All};
ghost use Rattle.cnf_core.specs.Formula.{Formula};
ghost use Rattle.refutation_check.specs.Chain.{IsRefutation};
ghost use Rattle.refutation_check.specs.ProofText.{IsProofText};
ghost use Rattle.refutation_check.specs.declared.log.Step.{Step as LogStep};
ghost use Rattle.rel_formula.specs.Bounds.{Bounded};
ghost use Rattle.rel_formula.specs.Instance.{AreCells};
ghost use Rattle.swap_symmetry.specs.Due.{IsDue};
ghost use Rattle.session_rules.specs.Proofs.{IsCovered};
ghost use Rattle.script_text.specs.Proofs.Printed.{IsAcceptedText};

/// A proof text that says a formula and a refutation of it is accepted.
pub fn refutations_are_accepted()
    ensures { (bytes : List ℕ) (f : Formula) (log : List LogStep) → IsProofText bytes f log → IsRefutation f.clauses log → IsAcceptedText bytes }
{}

/// What the proof of an end may block is of the problem's cells.
pub fn covered_scenarios_are_cells()
    ensures { (p : Bounded) (floor : List ℕ) (shown blocked : List (List ℕ)) → All (IsDue p floor) shown → IsCovered p floor shown blocked → All (AreCells p) blocked }
{}
