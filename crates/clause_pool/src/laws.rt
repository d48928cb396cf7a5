// Laws of the definitions: each is the contract of a function that does nothing.
ghost use Rattle.std.specs.Prelude.{◌≡◌, ◌≤◌, ◌+◌, ℕ, List, All, length, slice_get, Some};
ghost use Rattle.cnf_core.specs.declared.literal.Lit.{Lit};
ghost use Rattle.refutation_check.specs.declared.log.Step.{Step};
ghost use Rattle.refutation_check.specs.Chain.{IsAccepted};
ghost use Rattle.clause_pool.specs.Limits.{IsLongestFit};

/// Each hint of an accepted log is the number of a member or of an earlier step.
pub fn accepted_hints_name_members()
    ensures named { (members : List (List Lit)) (log : List Step) → IsAccepted members log → (i : ℕ) (s : Step) → slice_get log i ≡ Some s → All (λ hint. (1 ≤ hint) × (hint ≤ length members + i)) s.hints }
    ensures from_one { (members : List (List Lit)) (log : List Step) → IsAccepted members log → All (λ s. All (λ hint. 1 ≤ hint) s.hints) log }
{}

/// Of the steps that could come behind a pool, one number is the longest fit.
pub fn one_length_is_longest()
    ensures { (pool steps : List Step) (n m : ℕ) → IsLongestFit pool steps n → IsLongestFit pool steps m → n ≡ m }
{}
