// Laws of the definitions: each is the contract of a function that does nothing.
ghost use Rattle.std.specs.Prelude.{◌≡◌, ◌≢◌, ◌⊎◌, ◌<◌, ◌≤◌, ◌^◌, ℕ, List, [], map, length, slice_get, Ok, All, AllPairs};
ghost use Rattle.rel_formula.specs.Kernel.{ExpressionTree};
ghost use Rattle.rel_formula.specs.Bounds.{Bounded, IsProblem, HasFewAtoms, HasDisjointTops, cells_of};
ghost use Rattle.rel_formula.specs.Shape.{IsProper};
ghost use Rattle.rel_formula.specs.declared.problem.Relation.{Relation};
ghost use Rattle.tuple_core.specs.Rows.{IsRows};
ghost use Rattle.rel_formula.specs.Renaming.{IsSymmetric};
ghost use Rattle.rel_terms.specs.Terms.{HasTerms};
ghost use Rattle.named_model.specs.Model.{NamedTree};
ghost use Rattle.alloy_syntax.specs.Tree.{ModelTree};
ghost use Rattle.named_model.specs.Phrase.{PhraseTree};
ghost use Rattle.named_model.specs.Faults.{faults_in};
ghost use Rattle.named_model.specs.Declarations.{named_of};
ghost use Rattle.model_types.specs.Typing as typing;
ghost use Rattle.model_types.specs.Typing.{Settled, settled};
ghost use Rattle.lowering_rules.specs.Binders.{Local};
ghost use Rattle.lowering_rules.specs.Lowering.{base_of, body_lowered, lowered};
ghost use Rattle.lowering_rules.specs.Shapes.{HasRelations, StandFor, IsOfKind};
ghost use Rattle.lowering_rules.specs.Calls.{IsRank};
ghost use Rattle.lowering_rules.specs.Typed.{HasReferences, HasTypes};
ghost use Rattle.model_types.specs.Models.{declared_in, settled_in, types_checked};
ghost use Rattle.lowering_rules.specs.declared.fault.LowerFault.{LowerFault};
ghost use Rattle.lowering_rules.specs.Problem.{ProblemOf, IsWant, IsRefusal};
ghost use Rattle.lowering_rules.specs.Rows.{bodies, calls, signatures, fields, three_facts, subsets, outline_rows, refusals, AreLowered, AreWithFacts, AreOutlined, AreRefused};

/// Every renaming keeps the bounds of the problem of a model and a command.
pub fn problems_are_symmetric()
    ensures { (m : NamedTree) (n : ℕ) (facts : List ℕ) (p : Bounded) → ProblemOf m n facts p → IsSymmetric p }
{}

/// The problem of a model and a command has at most 64 atoms, and none is in two top-level signatures.
pub fn problems_are_small()
    ensures atoms { (m : NamedTree) (n : ℕ) (facts : List ℕ) (p : Bounded) → ProblemOf m n facts p → HasFewAtoms p }
    ensures tops { (m : NamedTree) (n : ℕ) (facts : List ℕ) (p : Bounded) → ProblemOf m n facts p → HasDisjointTops p }
{}

/// The problem of a model and a command is as every problem is, where its sets are in order, its names differ, its relations and
/// its cells are few, and its formula is proper.
pub fn problems_are_formed()
    ensures { (m : NamedTree) (n : ℕ) (facts : List ℕ) (p : Bounded) → ProblemOf m n facts p
        → All (λ (r : Relation). IsRows r.lower × IsRows r.upper) p.relations → AllPairs (λ (r s : Relation). r.name ≢ s.name) p.relations
        → length p.relations ≤ 128 → length (cells_of p) ≤ 4096 → IsProper (map (λ (r : Relation). r.lower.arity) p.relations) 0 p.formula
        → IsProblem p }
{}

/// A model has at most one problem of a command and some facts.
pub fn problems_are_one()
    ensures { (m : NamedTree) (n : ℕ) (facts : List ℕ) (p q : Bounded) → IsProblem p → IsProblem q → ProblemOf m n facts p → ProblemOf m n facts q → p ≡ q }
{}

/// Where there is a problem with at most 262,144 terms, nothing refuses it but want of memory or of room.
pub fn problems_are_not_refused()
    ensures { (m : NamedTree) (n : ℕ) (facts : List ℕ) (p : Bounded) → IsProblem p → ProblemOf m n facts p → (k : ℕ) → HasTerms p k → k ≤ 2 ^ 18
        → (f : LowerFault) → IsRefusal m n facts f → IsWant f }
{}

/// No two faults are both the first one, beside want of memory and of room.
pub fn refusals_are_one()
    ensures { (m : NamedTree) (n : ℕ) (facts : List ℕ) (f g : LowerFault) → IsRefusal m n facts f → IsRefusal m n facts g
        → (f ≡ g) ⊎ (IsWant f ⊎ IsWant g) }
{}

/// A call becomes the body with the arguments in place of the parameters, wherever calls go down a rank.
pub fn calls_become_bodies()
    ensures { (m : NamedTree) (rank : ℕ → ℕ) → IsRank rank m → (q d : ℕ) (es : List ExpressionTree) → q < length m.callees
        → (base_of m).calls q d es ≡ body_lowered (base_of m) d es (slice_get m.callees q) }
{}

/// What the parts of bodies, calls, facts, commands, signatures and fields become in the texts of the tables, which relations
/// these texts have, and why some commands have no problem.
pub fn rows_are_lowered()
    ensures bodies { AreLowered bodies }
    ensures calls { AreLowered calls }
    ensures signatures { AreLowered signatures }
    ensures fields { AreLowered fields }
    ensures facts { AreWithFacts three_facts subsets }
    ensures relations { AreOutlined outline_rows }
    ensures refusals { AreRefused refusals }
{}

/// What a part with types becomes is well formed, and of the sort and the arity of the part, where no part has a fault of its
/// types, and calls go down a rank.
pub fn parts_are_well_formed()
    ensures { (m : NamedTree) (rank : ℕ → ℕ) → HasTypes m → IsRank rank m → (ns : List ℕ) → HasRelations ns (declared_in m) (length m.signatures)
        → (x : PhraseTree) (k : ℕ) (locals : List typing.Local) (ls : List Local) (tops : List ℕ) (y : Settled) → StandFor ns k locals ls
        → settled (declared_in m) locals tops x ≡ Ok y → IsOfKind ns k y.kind (lowered (base_of (settled_in m)) ls k y.tree) }
{}

/// The formula of a problem is well formed, where references are there, no part has a fault of its types, and calls go down a
/// rank.
pub fn formulas_are_proper()
    ensures { (m : NamedTree) (rank : ℕ → ℕ) → HasReferences m → HasTypes m → IsRank rank m
        → (n : ℕ) (facts : List ℕ) (p : Bounded) → ProblemOf (settled_in m) n facts p
        → IsProper (map (λ (r : Relation). r.lower.arity) p.relations) 0 p.formula }
{}

/// What a tree without faults says: its references are there, no part has a fault of its types, and calls go down a rank.
pub fn models_without_faults_are_typed()
    ensures references { (t : ModelTree) → HasReferences (named_of t) }
    ensures types { (t : ModelTree) → types_checked (named_of t) ≡ Ok tt → HasTypes (named_of t) }
    ensures ranks { (t : ModelTree) → faults_in t ≡ [] → (rank : ℕ → ℕ) × IsRank rank (named_of t) }
{}
