// Laws of the definitions: each is the contract of a function that does nothing.
ghost use Rattle.std.specs.Prelude.{◌≡◌, ℕ, List};
ghost use Rattle.named_model.specs.Phrase.{PhraseTree, PhraseTrees};
ghost use Rattle.model_types.specs.Typing.{Local, Declared, settled, formulas_settled, types_in, local_types};
ghost use Rattle.model_types.specs.Bounding.{type_of};
ghost use Rattle.model_types.specs.Bounds.Same.{AreSame};
ghost use Rattle.alloy_types.specs.Declarations.Same.{AreSameDeclared, AreSameLocals};

/// A part has the same type.
pub fn types_are_the_same()
    ensures { (d e : Declared) → AreSameDeclared d e → (ls ms : List Local) → AreSameLocals ls ms → (x : PhraseTree) → AreSame (type_of (types_in d) (local_types ls) x) (type_of (types_in e) (local_types ms) x) }
{}

/// A part is settled alike.
pub fn parts_are_settled_alike()
    ensures { (d e : Declared) → AreSameDeclared d e → (ls ms : List Local) → AreSameLocals ls ms → (tops : List ℕ) (x : PhraseTree) → settled d ls tops x ≡ settled e ms tops x }
{}

/// Formulas are settled alike.
pub fn formulas_are_settled_alike()
    ensures { (d e : Declared) → AreSameDeclared d e → (ls ms : List Local) → AreSameLocals ls ms → (xs : PhraseTrees) → formulas_settled d ls xs ≡ formulas_settled e ms xs }
{}
