// Laws of the definitions.
ghost use Rattle.std.specs.Prelude.{◌≡◌, ◌≢◌, Contains};
ghost use Rattle.tuple_core.specs.declared.atom.Atom.{Atom};
ghost use Rattle.tuple_core.specs.Swap.{swap_atoms};
ghost use Rattle.tuple_core.specs.Gains.{Same};
ghost use Rattle.tuple_core.specs.Rows.{Rows, IsRows};

/// Sets of one arity with the same tuples are one value.
pub fn same_tuples_are_one_set()
    ensures { (v : Rows) → (w : Rows) → IsRows v → IsRows w → v.arity ≡ w.arity → Same (Contains v.rows) (Contains w.rows) → v ≡ w }
{}

/// The exchange of two atoms gives each for the other and leaves all others, and a second exchange undoes it.
/// It keeps each atom's signature where the two have one signature.
pub fn swap_is_a_renaming()
    ensures first { (a : Atom) → (b : Atom) → swap_atoms a b a ≡ b }
    ensures second { (a : Atom) → (b : Atom) → swap_atoms a b b ≡ a }
    ensures others { (a : Atom) → (b : Atom) → (x : Atom) → x ≢ a → x ≢ b → swap_atoms a b x ≡ x }
    ensures back { (a : Atom) → (b : Atom) → (x : Atom) → swap_atoms a b (swap_atoms a b x) ≡ x }
    ensures tops { (a : Atom) → (b : Atom) → (x : Atom) → a.top ≡ b.top → (swap_atoms a b x).top ≡ x.top }
{}
