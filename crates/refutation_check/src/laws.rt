// Laws of logs: each is the contract of a function that does nothing.
ghost use Rattle.std.specs.Prelude.{◌≡◌, ◌≤◌, ◌+◌, ◌⊎◌, ◌++◌, ◌∷◌, ◌↔◌, [], true, ℕ, List, length, map};
ghost use Rattle.cnf_core.specs.declared.literal.Lit.{Lit};
ghost use Rattle.cnf_core.specs.Formula.{Formula};
ghost use Rattle.refutation_check.specs.declared.log.Step.{Step};
ghost use Rattle.refutation_check.specs.declared.proof_text.fault.ProofFault.{ProofFault};
ghost use Rattle.refutation_check.specs.declared.proof_text.fault.ProofFault.TheVariants.{Memory};
ghost use Rattle.refutation_check.specs.ProofText.{IsProofText};
ghost use Rattle.refutation_check.specs.ProofFault.{HasFault};
ghost use Rattle.refutation_check.specs.Chain.{members_of, IsChain, IsNovel, IsAccepted, IsRefutation, EndsEmpty};
ghost use Rattle.refutation_check.specs.declared.refutation.Verdict.{Verdict};
ghost use Rattle.refutation_check.specs.Verdict.{Fits};
ghost use Rattle.refutation_check.specs.Lift.{lifted};
ghost use Rattle.refutation_check.specs.Renaming.{AreApart, renamed_clause, renamed_step};
ghost use Rattle.refutation_check.specs.Renumbering.{Renumbers, not_local, free_steps};
ghost use Rattle.refutation_check.specs.SearchLog.{IsAllNovel, IsNovelButLast, is_novel, novel_steps};

/// Where the members get other numbers, a chain with the new hints stays one.
pub fn chains_are_renumbered()
    ensures { (renumber : ℕ → ℕ) (members others : List (List Lit)) (clause : List Lit) (hints : List ℕ) → Renumbers renumber hints members others → IsChain members clause hints → IsChain others clause (map renumber hints) }
{}

/// The pool of a search, lifted over the local clauses, and then its log, are one log over the formula and the
/// local clauses.
pub fn lifted_pool_and_log_are_accepted()
    ensures accepted { (clauses local : List (List Lit)) (pool log : List Step) → IsAccepted clauses pool → IsAccepted (members_of (clauses ++ local) pool) log → IsAccepted (clauses ++ local) (lifted (length clauses) (length local) pool ++ log) }
    ensures refuted { (clauses local : List (List Lit)) (pool log : List Step) → IsAccepted clauses pool → IsAccepted (members_of (clauses ++ local) pool) log → EndsEmpty log → IsRefutation (clauses ++ local) (lifted (length clauses) (length local) pool ++ log) }
{}

/// The steps of a search that need no local clause are a log over the formula and the pool.
pub fn free_steps_are_accepted()
    ensures { (clauses local : List (List Lit)) (pool log : List Step) → IsAccepted (members_of (clauses ++ local) pool) log → IsAccepted (members_of clauses pool) (free_steps (not_local (length clauses) (length local) (length pool)) log) }
{}

/// Under other names of the variables, no two with one name, the verdict is the same.
pub fn verdicts_stand_under_other_names()
    ensures { (name : ℕ → ℕ) (clauses : List (List Lit)) (log : List Step) (verdict : Verdict) → AreApart name
        → Fits clauses log verdict → Fits (map (renamed_clause name) clauses) (map (renamed_step name) log) verdict }
{}

/// The number of novel steps is that of all steps, where each is novel, and at most one less, where a last one
/// may be empty.
pub fn novel_steps_are_counted()
    ensures exact { (members : List (List Lit)) (clause : List Lit) → (is_novel members clause ≡ true) ↔ IsNovel members clause }
    ensures at_most { (given : List (List Lit)) (log : List Step) → novel_steps given log ≤ length log }
    ensures all { (given : List (List Lit)) (log : List Step) → IsAllNovel given log → novel_steps given log ≡ length log }
    ensures but_last { (given : List (List Lit)) (log : List Step) → IsNovelButLast given log → length log ≤ novel_steps given log + 1 }
{}

/// Bytes say one formula and one log at most; those that do have no fault; and others have one fault at most.
pub fn bytes_say_one_proof()
    ensures proof { (bytes : List ℕ) (f g : Formula) (log other : List Step) → IsProofText bytes f log → IsProofText bytes g other → (f ≡ g) × (log ≡ other) }
    ensures no_fault { (bytes : List ℕ) (f : Formula) (log : List Step) (fault : ProofFault) → IsProofText bytes f log → HasFault bytes fault → fault ≡ Memory }
    ensures fault { (bytes : List ℕ) (first second : ProofFault) → HasFault bytes first → HasFault bytes second → (first ≡ second) ⊎ (first ≡ Memory) ⊎ (second ≡ Memory) }
{}
