// Laws of orderings in texts: each is the contract of a function that does nothing.
ghost use Rattle.std.specs.Prelude.{◌≡◌, ◌↔◌, ◌++◌, ℕ, List, Ok, All, Contains};
ghost use Rattle.tuple_core.specs.declared.atom.Atom.{Atom};
ghost use Rattle.rel_formula.specs.Bounds.{Bounded, IsProblem, relation_at};
ghost use Rattle.rel_formula.specs.Instance.{InRelation, IsInstance};
ghost use Rattle.alloy_syntax.specs.declared.tree.Open.{Open};
ghost use Rattle.alloy_syntax.specs.Tree.{ModelTree};
ghost use Rattle.named_model.specs.Declarations.{named_of};
ghost use Rattle.lowering_rules.specs.Formula.{all_facts};
ghost use Rattle.lowering_rules.specs.Problem.{ProblemOf};
ghost use Rattle.order_lib.specs.Expanded.{expanded};
ghost use Rattle.lowering_laws.specs.Orders.{ReadsOff};
ghost use Rattle.lowering_laws.specs.OrderingTexts.{HasPlainNames, model_of, order_facts, relations_of, OrdersAtoms};
ghost use Rattle.lowering_laws.specs.OrderingCalls.{CallsBecome};
ghost use Rattle.lowering_laws.specs.OrderingFaults.{IsFaultless};

use lowering_rules::laws::problems_are_one;

/// The facts of orderings stand behind all others. With them, whatever other facts there are, the instances are those without them
/// in which each ordering orders the atoms of its signature: this is all that they say.
pub fn facts_of_orderings_say_orders()
    ensures behind { (t e : ModelTree) → expanded t ≡ Ok e → all_facts (model_of e) ≡ all_facts (named_of t) ++ order_facts t }
    ensures split { (t e : ModelTree) → HasPlainNames t → expanded t ≡ Ok e → (n : ℕ) (facts : List ℕ) (p q : Bounded) → IsProblem p → IsProblem q
        → ProblemOf (model_of e) n (facts ++ order_facts t) p → ProblemOf (model_of e) n facts q
        → (s : List ℕ) → IsInstance p s ↔ (IsInstance q s × All (λ o. OrdersAtoms p s (relations_of e o)) t.opens) }
{
    problems_are_one();
}

/// In each such instance, what the names of an ordering stand for is read off the list of atoms in which it orders them.
pub fn names_of_orderings_are_read_off()
    ensures { (t e : ModelTree) → HasPlainNames t → expanded t ≡ Ok e → (n : ℕ) (facts : List ℕ) (p : Bounded)
        → ProblemOf (model_of e) n (facts ++ order_facts t) p → (s : List ℕ) → IsInstance p s → (o : Open) → Contains t.opens o
        → (order : OrdersAtoms p s (relations_of e o)) × ReadsOff p s (relations_of e o) order.ordered.atoms }
{}

/// A call of a function or a predicate of an ordering becomes what its name stands for.
pub fn calls_become_what_names_stand_for()
    ensures { (t e : ModelTree) → HasPlainNames t → expanded t ≡ Ok e → (o : Open) → Contains t.opens o → CallsBecome e o }
{}

/// In every scenario an ordered signature has all the atoms that it may have.
pub fn ordered_signatures_are_exact()
    ensures { (t e : ModelTree) → HasPlainNames t → expanded t ≡ Ok e → (n : ℕ) (facts : List ℕ) (p : Bounded) → ProblemOf (model_of e) n facts p
        → (o : Open) → Contains t.opens o → (s : List ℕ) (u : List Atom)
        → InRelation p (Contains s) (relations_of e o).signature u ↔ Contains (relation_at p.relations (relations_of e o).signature).upper.rows u }
{}

/// What an ordering declares has no fault of its names and its types.
pub fn what_orderings_declare_has_no_fault()
    ensures { (t e : ModelTree) → HasPlainNames t → expanded t ≡ Ok e → (o : Open) → Contains t.opens o → IsFaultless e o }
{}
